use files::*;
use sheets::Refusal;
use std::alloc::Global;
use std::test::Fail;

// What a file of one list is to give: the list, or the number of the refusal.
type Wanted = Result<&'static [u32], u32>;

fn told(answer: &Result<Vec<u32>, Refusal>) -> Result<&[u32], u32> {
    answer.as_deref().map_err(|refusal| refusal.number())
}

const FIGURES: [(&[u8], Wanted); 6] = [
    (&[], Ok(&[])),
    (&[0, 0, 1, 2, 127, 255, 255, 254], Ok(&[258, 2147483646])),
    (&[0], Err(1)),
    (&[127, 255, 255, 255], Err(3)),
    (&[255, 255, 255, 255], Err(3)),
    (&[127, 255, 255, 255, 0], Err(1)),
];

#[test]
fn figure_files(rt: HostRuntime) {
    for (bytes, wanted) in FIGURES {
        assert_eq!(rt; told(&read_figures(rt.alloc(), bytes)), wanted);
    }
}

const COINS: [(&[u8], Wanted); 4] = [
    (&[], Ok(&[])),
    (&[255, 255, 255, 255, 127, 255, 255, 255], Ok(&[])),
    (&[128, 0, 0, 0, 255, 255, 255, 254], Ok(&[0, 2147483646])),
    (&[255, 255, 255], Err(1)),
];

#[test]
fn coin_files(rt: HostRuntime) {
    for (bytes, wanted) in COINS {
        assert_eq!(rt; told(&read_coins(rt.alloc(), bytes)), wanted);
    }
}

const ORDERS: [(&[u8], Wanted); 2] = [
    (
        &[255, 255, 255, 255, 1, 0, 0, 2],
        Ok(&[4294967295, 16777218]),
    ),
    (&[1, 2, 3], Err(1)),
];

#[test]
fn orders(rt: HostRuntime) {
    for (bytes, wanted) in ORDERS {
        assert_eq!(rt; told(&read_order(rt.alloc(), bytes)), wanted);
    }
}

// The number with which the inputs of a circle are refused, if they are.
fn refusal_of(heap: Global, n: usize, bytes: &[u8]) -> Option<u32> {
    read_circle_inputs(heap, n, bytes)
        .err()
        .map(|refusal| refusal.number())
}

// Two members: the figure 7 with the words 0x80000005 and P, and no figure with the word 9.
const TWO: [u8; 32] = [
    0, 0, 0, 1, 0, 0, 0, 7, 0, 0, 0, 2, 128, 0, 0, 5, 127, 255, 255, 255, 0, 0, 0, 0, 0, 0, 0, 1,
    0, 0, 0, 9,
];

#[test]
fn inputs_of_two(rt: HostRuntime) -> Result<(), Fail> {
    let inputs = read_circle_inputs(rt.alloc(), 2, &TWO)?;
    assert!(rt; inputs.figures.len() == 2 && inputs.coins.len() == 2);
    assert_eq!(rt; inputs.figures[0].as_slice(), [7].as_slice());
    assert!(rt; inputs.figures[1].is_empty());
    assert_eq!(rt; inputs.coins[0].as_slice(), [5].as_slice());
    assert_eq!(rt; inputs.coins[1].as_slice(), [9].as_slice());
    Ok(())
}

#[test]
fn cut_inputs(rt: HostRuntime) {
    for len in 0..TWO.len() {
        assert_eq!(rt; refusal_of(rt.alloc(), 2, &TWO[0..len]), Some(1));
    }
    assert_eq!(rt; refusal_of(rt.alloc(), 2, &TWO), None);
}

#[test]
fn other_numbers_of_members(rt: HostRuntime) {
    for n in [0, 1, 3, 15, usize::MAX] {
        assert_eq!(rt; refusal_of(rt.alloc(), n, &TWO), Some(1));
    }
    assert_eq!(rt; refusal_of(rt.alloc(), 0, &[]), None);
}

// A figure that is too large, and then a count that does not fit besides.
#[test]
fn form_before_range(rt: HostRuntime) {
    let mut bytes = TWO;
    bytes[4] = 128;
    assert_eq!(rt; refusal_of(rt.alloc(), 2, &bytes), Some(3));
    bytes[27] = 255;
    assert_eq!(rt; refusal_of(rt.alloc(), 2, &bytes), Some(1));
}

#[test]
fn written_words(rt: HostRuntime) -> Result<(), Fail> {
    let mut out = Vec::new(rt.alloc());
    write_words(&[1, 16909060], &mut out)?;
    assert_eq!(rt; out.as_slice(), [0, 0, 0, 1, 1, 2, 3, 4].as_slice());
    Ok(())
}

#[test]
fn written_circle(rt: HostRuntime) -> Result<(), Fail> {
    let inputs = read_circle_inputs(rt.alloc(), 2, &TWO)?;
    let mut out = Vec::new(rt.alloc());
    write_circle_figures(&inputs.figures, &mut out)?;
    assert_eq!(rt;
        out.as_slice(),
        [0, 0, 0, 1, 0, 0, 0, 7, 0, 0, 0, 0].as_slice()
    );
    Ok(())
}

#[test]
fn lent_lists(rt: HostRuntime) -> Result<(), Fail> {
    let figures = read_circle_figures(rt.alloc(), 1, &[0, 0, 0, 1, 0, 0, 0, 7])?;
    let lent = lend(rt.alloc(), &figures)?;
    assert!(rt; lent.len() == 1);
    assert_eq!(rt; lent[0], [7].as_slice());
    Ok(())
}
