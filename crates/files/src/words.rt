// Words of four bytes, the high byte first.
ghost use Rattle.std.specs.Prelude.{◌≡◌, true, false, IfOk, MatchResult, vec_items};
ghost use Rattle.sheets.specs.declared.refusal.Refusal.TheVariants.{Malformed};
ghost use Rattle.files.specs.Answers.{Answers};
ghost use Rattle.files.specs.Files.{whole, word_file};
ghost use Rattle.files.specs.Words.{words as words_of};

use sheets::Refusal;
use std::alloc::{AllocError, Global};

// A file of words and nothing else.
pub(crate) fn read_words(heap: Global, bytes: &[u8]) -> Result<Vec<u32>, Refusal>
    ensures { Answers vec_items (word_file bytes.now) result }
{
    check_whole(bytes)?;
    Ok(split_words(heap, bytes)?)
}

// That no byte is left over.
pub(crate) fn check_whole(bytes: &[u8]) -> Result<(), Refusal>
    ensures { MatchResult result (λ _. whole bytes.now ≡ true) (λ e. (e ≡ Malformed) × (whole bytes.now ≡ false)) }
{
    if bytes.len() % 4 != 0 {
        return Err(Refusal::Malformed);
    }
    Ok(())
}

// All words of some bytes. The memory for them is no more than the bytes take.
pub(crate) fn split_words(heap: Global, bytes: &[u8]) -> Result<Vec<u32>, AllocError>
    ensures { IfOk result (λ v. v.items ≡ words_of bytes.now) }
{
    let (words, _) = bytes.as_chunks::<4>();
    words
        .iter()
        .map(|word| u32::from_be_bytes(*word))
        .collect(heap)
}
