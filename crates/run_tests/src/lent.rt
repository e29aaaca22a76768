// A line for who holds bare words and lends all lists.
use crate::writing::sheet_of;
use runs::{Setup, do_line};
use sheets::{Line, are_all_below};
use std::test::Fail;

// Member j's share of 5 under the coin 2 is 5 + 2 j.
#[test]
fn one_figure(rt: HostRuntime) -> Result<(), Fail> {
    let heap = rt.alloc();
    let sheet = sheet_of(&rt, heap, 3, 1, &[Line::Input(1), Line::Open(0)])?;
    let setup = Setup::new(&sheet, &[false; 15]);
    let mut figures: [&[u32]; 1] = [&[5, 9]];
    let mut coins: [&[u32]; 1] = [&[2, 3]];
    assert!(rt; are_all_below(&figures));
    assert!(rt; are_all_below(&coins));
    let mut held = Vec::new(heap);
    let mut opened = Vec::new(heap);
    let mut seen = Vec::new(heap);
    do_line(
        &setup,
        Line::Input(1),
        &mut figures,
        &mut coins,
        &mut held,
        &mut opened,
        &mut seen,
    )?;
    let shares = [7, 9, 11, 13, 15, 17, 19, 21, 23, 25, 27, 29, 31, 33, 35];
    assert_eq!(rt; held.as_slice(), [shares].as_slice());
    assert_eq!(rt; figures[0], [9].as_slice());
    assert_eq!(rt; coins[0], [3].as_slice());
    assert_eq!(rt; opened.len() + seen.len(), 0);
    Ok(())
}
