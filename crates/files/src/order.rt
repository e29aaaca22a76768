// Orders of delivery: a word for each choice.
ghost use Rattle.files.specs.Answers.{Answers};
ghost use Rattle.files.specs.Files.{word_file};
ghost use Rattle.std.specs.Prelude.{vec_items};

use crate::words::read_words;
use sheets::Refusal;
use std::alloc::Global;

pub fn read_order(heap: Global, bytes: &[u8]) -> Result<Vec<u32>, Refusal>
    ensures { Answers vec_items (word_file bytes.now) result }
{
    read_words(heap, bytes)
}
