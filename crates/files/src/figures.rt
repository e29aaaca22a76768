// Figure files: words below P.
ghost use Rattle.std.specs.Prelude.{◌≡◌, T, IfOk, vec_items};
ghost use Rattle.field.specs.Field.{below};
ghost use Rattle.files.specs.Answers.{Answers};
ghost use Rattle.files.specs.Files.{figure_file};

use crate::words::read_words;
use sheets::{Refusal, are_below};
use std::alloc::Global;

pub fn read_figures(heap: Global, bytes: &[u8]) -> Result<Vec<u32>, Refusal>
    ensures answer { Answers vec_items (figure_file bytes.now) result }
    ensures in_field { IfOk result (λ v. T (below v.items)) }
{
    let words = read_words(heap, bytes)?;
    if !are_below(&words) {
        return Err(Refusal::OutOfRange);
    }
    Ok(words)
}
