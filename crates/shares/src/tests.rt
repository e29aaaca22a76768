ghost use Rattle.std.specs.Prelude.{◌<◌, ◌≤◌, T, length};
ghost use Rattle.field.specs.Field.{p, below};

use super::*;

// n shares of a secret, joined by the first m.
fn dealt_and_joined(secret: u32, coins: &[u32], shares: &mut [u32], weights: &mut [u32]) -> u32
    requires { (secret < p) × T (below coins.now) × (length shares.old ≤ 15) × (length weights.old ≤ length shares.old) }
{
    deal(secret, coins, shares);
    fill_weights(weights);
    join(weights, shares)
}

#[test]
fn worked_figures(rt: HostRuntime) {
    let mut shares = [0; 3];
    let mut weights = [0; 3];
    assert_eq!(rt; dealt_and_joined(5, &[2], &mut shares, &mut weights), 5);
    assert_eq!(rt; shares, [7, 9, 11]);
    assert_eq!(rt; weights, [3, field::P - 3, 1]);
    assert_eq!(rt; dealt_and_joined(3, &[4], &mut shares, &mut weights), 3);
    assert_eq!(rt; shares, [7, 11, 15]);
    assert_eq!(rt; join(&weights, &[14, 20, 26]), 8);
    assert_eq!(rt; share(5, &[2], 3), 11);
    assert_eq!(rt; value(&[5, 2, 1], 10), 125);
}

#[test]
fn edges(rt: HostRuntime) {
    let top = field::P - 1;
    let mut shares = [9; 15];
    let mut weights = [9; 15];
    assert_eq!(rt;
        dealt_and_joined(
            top,
            &[top, 0, top, 1, top, top, 0],
            &mut shares,
            &mut weights,
        ),
        top
    );
    assert_eq!(rt; shares[14], value(&[top, top, 0, top, 1, top, top, 0], 15));
    assert_eq!(rt;
        dealt_and_joined(0, &[top; 7], &mut shares, &mut weights),
        0
    );
}

#[test]
fn no_coins(rt: HostRuntime) {
    let mut row = [9; 4];
    let mut weight = [9; 1];
    assert_eq!(rt; dealt_and_joined(7, &[], &mut row, &mut weight), 7);
    assert_eq!(rt; row, [7; 4]);
    assert_eq!(rt; weight, [1]);
    let mut alone = [9; 1];
    assert_eq!(rt; dealt_and_joined(0, &[], &mut alone, &mut weight), 0);
}
