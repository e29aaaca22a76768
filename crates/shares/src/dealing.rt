// Values of polynomials, and the shares that they are.
ghost use Rattle.std.specs.Prelude.{◌≡◌, ℕ, ◌+◌, ◌<◌, ◌≤◌, T, map, length, slice_index, slice_index_or};
ghost use Rattle.field.specs.Field.{p, ◌⊕◌, ◌⊗◌, below};
ghost use Rattle.shares.specs.Circle.{members};
ghost use Rattle.shares.specs.Polynomial.{value as value_at, share_of, dealt};

// The polynomial with these coefficients, the constant first, at x.
pub fn value(coefficients: &[u32], x: u32) -> u32
    requires { T (below coefficients.now) }
    ensures { (result ≡ value_at coefficients.now x) × (result < p) }
{
    match coefficients {
        [] => 0,
        [c, rest @ ..] => field::sum(*c, field::product(x, value(rest, x))),
    }
}

// Member j's share of a secret.
pub fn share(secret: u32, coins: &[u32], j: u32) -> u32
    requires { (secret < p) × T (below coins.now) }
    ensures { (result ≡ share_of secret coins.now j) × (result < p) }
{
    field::sum(secret, field::product(j, value(coins, j)))
}

// The shares of members 1, 2, .., one for each place of `shares`. All members take each coefficient
// together, so that no step waits for the one before it.
pub fn deal(secret: u32, coins: &[u32], shares: &mut [u32])
    requires { (secret < p) × T (below coins.now) × (length shares.old ≤ 15) }
    ensures { shares.new ≡ dealt (length shares.old) secret coins.now }
{
    values(coins, shares);
    raise(secret, shares);
}

// The values at 1, 2, .., one for each place of `row`.
fn values(coefficients: &[u32], row: &mut [u32])
    requires { T (below coefficients.now) × (length row.old ≤ 15) }
    ensures { row.new ≡ map (value_at coefficients.now) (members (length row.old)) }
{
    match coefficients {
        [] => row.fill(0),
        [c, rest @ ..] => {
            values(rest, row);
            raise(*c, row);
        }
    }
}

// From f(j) to c + j f(j), for member j at place j - 1.
fn raise(c: u32, row: &mut [u32])
    requires { (c < p) × (length row.old ≤ 15) }
    ensures { (k : ℕ) → k < length row.old → slice_index row.new k ≡ c ⊕ (k + 1) ⊗ slice_index_or row.old k 0 }
{
    for (i, share) in row.iter_mut().enumerate() {
        *share = field::sum(c, field::product(i as u32 + 1, *share));
    }
}
