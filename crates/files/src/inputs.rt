// The inputs of a whole circle: each member's figures and coins.
ghost use Rattle.std.specs.Prelude.{T, IfOk};
ghost use Rattle.field.specs.Field.{all_below};
ghost use Rattle.files.specs.Answers.{Answers};
ghost use Rattle.files.specs.Circles.{member_one, each, gathered, formed, circle_inputs};
ghost use Rattle.files.specs.Held.{held};
ghost use Rattle.files.specs.Lists.{lists};
ghost use Rattle.std.specs.Option.{option_map};

use crate::coins::split_coins;
use crate::parts::{check_end, cut};
use crate::words::split_words;
use sheets::{Refusal, each_below};
use std::alloc::Global;

// Member i's figures and coins are at place i - 1, in lists of their own, since a run takes the two apart.
#[derive(Drop)]
pub struct CircleInputs {
    pub figures: Vec<Vec<u32>>,
    pub coins: Vec<Vec<u32>>,
}

// The inputs of members 1 to n. The range of figures is looked at last, so that a fault of form wins.
pub fn read_circle_inputs(heap: Global, n: usize, bytes: &[u8]) -> Result<CircleInputs, Refusal>
    ensures answer { Answers held (circle_inputs n bytes.now) result }
    ensures in_field { IfOk result (λ v. T (all_below (lists v.figures)) × T (all_below (lists v.coins))) }
{
    let inputs = gather(heap, n, bytes)?;
    if !each_below(&inputs.figures) {
        return Err(Refusal::OutOfRange);
    }
    Ok(inputs)
}

// What n members bring, and nothing more. A loop shared with `read_lists` would take a closure that pushes, and be no plainer.
fn gather(heap: Global, n: usize, bytes: &[u8]) -> Result<CircleInputs, Refusal>
    ensures answer { Answers held (formed (option_map gathered (each member_one n bytes.now))) result }
    ensures coins { IfOk result (λ v. T (all_below (lists v.coins))) }
{
    let mut inputs = CircleInputs {
        figures: Vec::new(heap),
        coins: Vec::new(heap),
    };
    let mut rest = bytes;
    for _ in 0..n {
        let (figures, after) = cut(rest)?;
        inputs.figures.push(split_words(heap, figures)?)?;
        let (coins, after) = cut(after)?;
        inputs.coins.push(split_coins(heap, coins)?)?;
        rest = after;
    }
    check_end(rest)?;
    Ok(inputs)
}
