// The polynomial that is 1 at 0 and 0 at each watched member, and coins shifted by multiples of it.
#![tactic(auto)]

ghost use Rattle.std.specs.Prelude.{◌≡◌, ℕ, ◌+◌, ◌<◌, ◌≤◌, T, length, filter, slice_index, slice_index_or};
ghost use Rattle.field.specs.Field.{p, ◌⊕◌, ◌⊗◌, below};
ghost use Rattle.masks.specs.Coefficients.{coefficient, Holds};
ghost use Rattle.runs.specs.Pairing.{mask as mask_of};
ghost use Rattle.shares.specs.Circle.{members};
ghost use Rattle.runs.specs.Watching.{watches};

// The first eight coefficients of the product of 1 - x / w over the watched w among 1 to n. At most seven members are
// ever watched where there is a pairing, so these are all, and an array holds them.
pub fn mask(n: usize, watched: &[bool; 15]) -> [u32; 8]
    requires { n ≤ 15 }
    ensures { Holds result (mask_of (filter (watches watched.now) (members n))) }
{
    let mut coefficients = [1, 0, 0, 0, 0, 0, 0, 0];
    for member in (1..=n).rev() {
        if watched[member - 1] {
            coefficients = times_linear(&coefficients, field::negative(field::inverse(member)));
        }
    }
    coefficients
}

// A polynomial times 1 + k x.
fn times_linear(coefficients: &[u32; 8], k: u32) -> [u32; 8]
    requires { (i : ℕ) → i < 8 → slice_index coefficients.now i < p }
    ensures { (i : ℕ) → i < 8 → slice_index result i ≡ slice_index_or coefficients.now i 0 ⊕ k ⊗ coefficient coefficients.now i }
{
    let mut product = *coefficients;
    // By number, since each place takes from the one before it: windows would need the number of the place beside them.
    for i in 1..8 {
        product[i] = field::sum(coefficients[i], field::product(k, coefficients[i - 1]));
    }
    product
}

// Coins, place by place, each with d times the mask's coefficient of its place added. At most seven, so an array holds them.
pub fn shift(d: u32, mask: &[u32; 8], coins: &[u32]) -> [u32; 7]
    requires { (length coins.now ≤ 7) × T (below coins.now) }
    ensures places { (i : ℕ) → i < length coins.now → slice_index result i ≡ slice_index_or coins.now i 0 ⊕ d ⊗ slice_index_or mask.now (i + 1) 0 }
    ensures small { T (below result) }
{
    let mut draw = [0; 7];
    for (i, coin) in coins.iter().enumerate() {
        draw[i] = field::sum(*coin, field::product(d, mask[i + 1]));
    }
    draw
}
