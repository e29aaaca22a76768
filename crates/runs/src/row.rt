// The shares of a value as a row of 15 words, member j's at place j - 1. Rows are always worked on whole, so that the
// loops have a fixed length. Each operation has its own loop of one line: one loop over a closure would not be shorter,
// and what the closure does would have to be said again.
ghost use Rattle.std.specs.Prelude.{◌≡◌, ℕ, ◌<◌, T, List, replicate};
ghost use Rattle.field.specs.Field.{p, below};
ghost use Rattle.shares.specs.Polynomial.{dealt, added, scaled};

use std::marker::Model;

#[derive(Clone, Copy, PartialEq, Eq, Debug)]
pub struct Row {
    pub(crate) shares: [u32; 15],
}

// A row is seen as the list of its shares, which are numbers below P.
impl Model for Row {
    ghost Value = { List ℕ };

    ghost view = { λ r. r.shares };

    ghost invariant = { λ r. T (below r.shares) };

    ghost inverse = { λ xs. record { shares = xs } };
}

impl Row {
    // The row of words below P.
    pub fn new(words: [u32; 15]) -> Row
        requires { T (below words) }
        ensures { result ≡ words }
    {
        Row { shares: words }
    }

    pub(crate) fn zero() -> Row
        ensures { result ≡ replicate 15 0 }
    {
        Row { shares: [0; 15] }
    }

    // The shares of a secret under some coins.
    pub(crate) fn deal(secret: u32, coins: &[u32]) -> Row
        requires { (secret < p) × T (below coins.now) }
        ensures { result ≡ dealt 15 secret coins.now }
    {
        let mut shares = [0; 15];
        shares::deal(secret, coins, &mut shares);
        Row { shares }
    }

    pub(crate) fn sum(&self, other: &Row) -> Row
        ensures { result ≡ added self.now other.now }
    {
        let mut shares = self.shares;
        for (k, share) in shares.iter_mut().enumerate() {
            *share = field::sum(*share, other.shares[k]);
        }
        Row { shares }
    }

    // A fixed number times each share.
    pub(crate) fn multiple(&self, factor: u32) -> Row
        ensures { result ≡ scaled factor self.now }
    {
        let mut shares = self.shares;
        for share in &mut shares {
            *share = field::product(factor, *share);
        }
        Row { shares }
    }

    // Adds a weight times a row.
    pub(crate) fn add_weighted(&mut self, weight: u32, row: &Row)
        ensures { self.new ≡ added self.old (scaled weight row.now) }
    {
        for (k, share) in self.shares.iter_mut().enumerate() {
            *share = field::sum(*share, field::product(weight, row.shares[k]));
        }
    }

    // All 15, member j's at place j - 1.
    pub fn shares(&self) -> &[u32; 15]
        ensures { result.now ≡ self.now }
    {
        &self.shares
    }
}
