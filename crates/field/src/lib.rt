// Arithmetic modulo the prime P = 2^31 - 1. Numbers are bare words and no type of their own, since shares, coins and
// figures are lent as slices of words, as they lie in files.
#![tactic(auto)]

ghost use Rattle.std.specs.Prelude.{◌≡◌, ◌<◌, ◌≤◌};
ghost use Rattle.field.specs.Field.{p, ◌⊕◌, ◌⊗◌, neg, inv};
ghost use Rattle.field.specs.Laws.{Inverses};

pub const P: u32 = 2147483647;

// a + b. Both lie below P, so that the sum fits 32 bits.
pub fn sum(a: u32, b: u32) -> u32
    requires { (a < p) × (b < p) }
    ensures { (result ≡ a ⊕ b) × (result < p) }
{
    (a + b) % P
}

// a * b, of any two words.
pub fn product(a: u32, b: u32) -> u32
    ensures { (result ≡ a ⊗ b) × (result < p) }
{
    ((a as u64 * b as u64) % P as u64) as u32
}

// -a
pub fn negative(a: u32) -> u32
    requires { a < p }
    ensures { (result ≡ neg a) × (result < p) }
{
    (P - a) % P
}

const INVERSES: [u32; 15] = [
    1, 1073741824, 1431655765, 536870912, 858993459, 1789569706, 1840700269, 268435456, 1908874353,
    1503238553, 1952257861, 894784853, 1486719448, 1994091958, 286331153,
];

// 1 / k
pub fn inverse(k: usize) -> u32
    requires { (0 < k) × (k ≤ 15) }
    ensures { (result ≡ inv k) × (k ⊗ result ≡ 1) × (result < p) }
{
    INVERSES[k - 1]
}

// Carries the rule of the whole table: each entry is the inverse of its place, and there is no other.
pub fn inverses_law()
    ensures { Inverses }
{}

#[cfg(test)]
mod tests {
    use super::*;

    #[test]
    fn edges(rt: HostRuntime) {
        assert_eq!(rt; sum(0, 0), 0);
        assert_eq!(rt; sum(P - 1, 1), 0);
        assert_eq!(rt; sum(P - 1, P - 1), P - 2);
        assert_eq!(rt; product(P - 1, P - 1), 1);
        assert_eq!(rt; product(P, u32::MAX), 0);
        assert_eq!(rt; product(u32::MAX, 1), 1);
        assert_eq!(rt; negative(0), 0);
        assert_eq!(rt; negative(P - 1), 1);
        assert_eq!(rt; negative(1), P - 1);
    }

    #[test]
    fn inverses(rt: HostRuntime) {
        for k in 1..16 {
            assert_eq!(rt; product(k as u32, inverse(k)), 1);
        }
        assert_eq!(rt; inverse(2), 1073741824);
    }
}
