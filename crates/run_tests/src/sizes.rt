// The largest sheet: all lines but three are products among 15 members.
use crate::writing::sheet_of;
use runs::run;
use sheets::Line;
use std::test::Fail;

#[test]
fn many_products(rt: HostRuntime) -> Result<(), Fail> {
    let heap = rt.alloc();
    let mut lines = Vec::with_capacity(heap, 4096)?;
    lines.push(Line::Input(1))?;
    lines.push(Line::Input(2))?;
    for _ in 0..4093 {
        lines.push(Line::Product(0, 1))?;
    }
    lines.push(Line::Open(4094))?;
    let sheet = sheet_of(&rt, heap, 15, 7, &lines)?;
    let figures: [&[u32]; 2] = [&[5], &[3]];
    let words = vec![in heap; 1234567; 28700]?;
    let coins = [words.as_slice(); 15];
    let all = run(heap, &sheet, &figures, &coins, &[true; 15])?;
    assert_eq!(rt; all.opened.as_slice(), [15].as_slice());
    assert_eq!(rt; all.seen.len(), 1350751);
    Ok(())
}
