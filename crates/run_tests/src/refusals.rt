// What is refused.
use crate::writing::sheet_of;
use runs::run;
use sheets::{Line, Refusal, Sheet};
use std::alloc::Global;
use std::process::Abort;
use std::test::Fail;

// Two figures of member 1, and their product.
fn squares(rt: &impl Abort, heap: Global) -> Result<Sheet, Fail> {
    sheet_of(
        rt,
        heap,
        3,
        1,
        &[
            Line::Input(1),
            Line::Input(1),
            Line::Product(0, 1),
            Line::Open(2),
        ],
    )
}

#[test]
fn figures_run_out(rt: HostRuntime) -> Result<(), Fail> {
    let sheet = squares(&rt, rt.alloc())?;
    let enough: [&[u32]; 3] = [&[1, 1, 1], &[1], &[1]];
    let few: [&[u32]; 3] = [&[1], &[], &[]];
    let one: [&[u32]; 1] = [&[7]];
    assert_eq!(rt;
        run(rt.alloc(), &sheet, &one, &enough, &[true; 15]).err(),
        Some(Refusal::NoFigure)
    );
    assert_eq!(rt;
        run(rt.alloc(), &sheet, &one, &few, &[false; 15]).err(),
        Some(Refusal::NoFigure)
    );
    assert_eq!(rt;
        run(rt.alloc(), &sheet, &[], &[], &[true; 15]).err(),
        Some(Refusal::NoFigure)
    );
    Ok(())
}

#[test]
fn coins_run_out(rt: HostRuntime) -> Result<(), Fail> {
    let sheet = squares(&rt, rt.alloc())?;
    let two: [&[u32]; 1] = [&[7, 8]];
    let enough: [&[u32]; 3] = [&[1, 1, 1], &[1], &[1]];
    let of_the_third: [&[u32]; 3] = [&[1, 1, 1], &[1], &[]];
    let of_the_first: [&[u32]; 3] = [&[1], &[1, 1, 1], &[1]];
    assert_eq!(rt;
        run(rt.alloc(), &sheet, &two, &enough, &[true; 15]).err(),
        None
    );
    assert_eq!(rt;
        run(rt.alloc(), &sheet, &two, &of_the_third, &[true; 15]).err(),
        Some(Refusal::NoCoins)
    );
    assert_eq!(rt;
        run(rt.alloc(), &sheet, &two, &of_the_first, &[true; 15]).err(),
        Some(Refusal::NoCoins)
    );
    Ok(())
}

// Also in a list that no line reads, and before anything that runs out.
#[test]
fn too_large(rt: HostRuntime) -> Result<(), Fail> {
    let sheet = squares(&rt, rt.alloc())?;
    let large: [&[u32]; 4] = [&[1], &[], &[], &[field::P]];
    let two: [&[u32]; 1] = [&[field::P - 1, 0]];
    let enough: [&[u32]; 3] = [&[field::P - 1, 0, 1], &[0], &[0]];
    assert_eq!(rt;
        run(rt.alloc(), &sheet, &two, &enough, &[true; 15]).err(),
        None
    );
    assert_eq!(rt;
        run(rt.alloc(), &sheet, &large, &enough, &[true; 15]).err(),
        Some(Refusal::OutOfRange)
    );
    assert_eq!(rt;
        run(rt.alloc(), &sheet, &two, &large, &[true; 15]).err(),
        Some(Refusal::OutOfRange)
    );
    Ok(())
}
