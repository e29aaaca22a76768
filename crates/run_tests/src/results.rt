// What is opened and what is seen.
use crate::writing::sheet_of;
use runs::run;
use sheets::Line;
use std::test::Fail;

#[test]
fn product(rt: HostRuntime) -> Result<(), Fail> {
    let sheet = sheet_of(
        &rt,
        rt.alloc(),
        3,
        1,
        &[
            Line::Input(1),
            Line::Input(2),
            Line::Product(0, 1),
            Line::Open(2),
        ],
    )?;
    let figures: [&[u32]; 2] = [&[5], &[3]];
    let coins: [&[u32]; 3] = [&[2, 1], &[4, 1], &[1]];
    let all = run(rt.alloc(), &sheet, &figures, &coins, &[true; 15])?;
    assert_eq!(rt; all.opened.as_slice(), [15].as_slice());
    assert_eq!(rt;
        all.seen.as_slice(),
        [
            5, 2, 7, 9, 11, 3, 4, 7, 11, 15, 1, 1, 1, 50, 51, 52, 100, 101, 102, 166, 167, 168, 16,
            17, 18,
        ]
        .as_slice()
    );
    let nobody = run(rt.alloc(), &sheet, &figures, &coins, &[false; 15])?;
    assert_eq!(rt; nobody.opened.as_slice(), [15].as_slice());
    assert_eq!(rt; nobody.seen.as_slice(), [16, 17, 18].as_slice());
    Ok(())
}

// No line needs coins where nobody is to be kept out.
#[test]
fn alone(rt: HostRuntime) -> Result<(), Fail> {
    let sheet = sheet_of(
        &rt,
        rt.alloc(),
        1,
        0,
        &[
            Line::Input(1),
            Line::Times(3, 0),
            Line::Sum(0, 1),
            Line::Product(1, 2),
            Line::Open(3),
        ],
    )?;
    let figures: [&[u32]; 1] = [&[4, 9]];
    let got = run(rt.alloc(), &sheet, &figures, &[], &[true; 15])?;
    assert_eq!(rt; got.opened.as_slice(), [192].as_slice());
    assert_eq!(rt; got.seen.as_slice(), [4, 4, 192, 192].as_slice());
    Ok(())
}

#[test]
fn product_of_a_product(rt: HostRuntime) -> Result<(), Fail> {
    let sheet = sheet_of(
        &rt,
        rt.alloc(),
        15,
        7,
        &[
            Line::Input(1),
            Line::Input(15),
            Line::Product(0, 1),
            Line::Product(2, 2),
            Line::Open(3),
        ],
    )?;
    let most = field::P - 1;
    let figures: [&[u32]; 15] = [
        &[5],
        &[],
        &[],
        &[],
        &[],
        &[],
        &[],
        &[],
        &[],
        &[],
        &[],
        &[],
        &[],
        &[],
        &[most],
    ];
    let some: &[u32] = &[
        most, 1, 2, 3, 4, 5, 6, most, 8, 9, 10, 11, 12, most, 0, 0, 0, 1, most, 0, 7,
    ];
    let coins = [some; 15];
    let got = run(
        rt.alloc(),
        &sheet,
        &figures,
        &coins,
        &[
            false, true, false, false, false, false, false, false, false, false, false, false,
            false, false, false,
        ],
    )?;
    assert_eq!(rt; got.opened.as_slice(), [25].as_slice());
    assert_eq!(rt; got.seen.len(), 61);
    Ok(())
}
