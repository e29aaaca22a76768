// A line at which two values are multiplied.
ghost use Rattle.std.specs.Prelude.{◌≡◌, ℕ, false, T};
ghost use Rattle.field.specs.Field.{all_below};
ghost use Rattle.runs.specs.Row.{row_of};
ghost use Rattle.runs.specs.Setups.{circle_in};
ghost use Rattle.runs.specs.Steps.{lacks, MultipliedAs, ProductAs};
ghost use Rattle.runs.specs.Watching.{watches};
ghost use Rattle.shares.specs.Circle.{members};
ghost use Rattle.sheets.specs.Families.{family, of};
ghost use Rattle.std.specs.List.{list_any};

use crate::row::Row;
use crate::setup::Setup;
use sheets::Refusal;

impl Setup {
    // The shares of the product of two values, of which the shares are given.
    pub(crate) fn multiply(
        &self,
        a: &Row,
        b: &Row,
        coins: &mut [&[u32]],
        seen: &mut Vec<u32>,
    ) -> Result<Row, Refusal>
        requires { T (all_below (family coins.old)) }
        ensures product { (f g : ℕ → ℕ) → a.now ≡ row_of f → b.now ≡ row_of g → ProductAs (circle_in self.now) (watches self.now.watched) f g (of (family coins.old)) (of (family coins.new)) seen.old.items seen.new.items result }
        ensures small { T (all_below (family coins.new)) }
    {
        self.note_all_coins(coins, seen)?;
        self.deal_products(a, b, coins, seen)
    }

    // Each member deals the product of its shares anew, and each share of the result is the joining of what came.
    fn deal_products(
        &self,
        a: &Row,
        b: &Row,
        coins: &mut [&[u32]],
        seen: &mut Vec<u32>,
    ) -> Result<Row, Refusal>
        requires { T (all_below (family coins.old)) × (list_any (lacks (circle_in self.now) (of (family coins.old))) (members self.now.n) ≡ false) }
        ensures multiplied { (f g : ℕ → ℕ) → a.now ≡ row_of f → b.now ≡ row_of g → MultipliedAs (circle_in self.now) (watches self.now.watched) f g (of (family coins.old)) (of (family coins.new)) seen.old.items seen.new.items result }
        ensures small { T (all_below (family coins.new)) }
    {
        let mut made = Row::zero();
        // By number: i is a member's place in two rows and, for the first 2t + 1 of them, among the weights, and its number
        // is what deals. A chain would carry all four.
        for i in 0..self.n {
            let secret = field::product(a.shares()[i], b.shares()[i]);
            let row = self.deal_out(i as u32 + 1, secret, coins, seen)?;
            if i < self.t + self.t + 1 {
                made.add_weighted(self.weights[i], &row);
            }
        }
        Ok(made)
    }
}
