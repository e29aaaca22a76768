// Coin files: words of which 31 bits are taken, uniform below P.
ghost use Rattle.std.specs.Prelude.{◌≡◌, T, IfOk, vec_items};
ghost use Rattle.field.specs.Field.{below};
ghost use Rattle.files.specs.Answers.{Answers};
ghost use Rattle.files.specs.Files.{coin_in, coins_of, coin_file};
ghost use Rattle.files.specs.Words.{words};

use crate::words::check_whole;
use sheets::Refusal;
use std::alloc::{AllocError, Global};

pub fn read_coins(heap: Global, bytes: &[u8]) -> Result<Vec<u32>, Refusal>
    ensures answer { Answers vec_items (coin_file bytes.now) result }
    ensures in_field { IfOk result (λ v. T (below v.items)) }
{
    check_whole(bytes)?;
    Ok(split_coins(heap, bytes)?)
}

// The coins of some bytes. There is room for a coin of each word, since what is filtered does not tell its length. The
// first links of the chain are those of `split_words`: no function can hand out an iterator over a closure.
pub(crate) fn split_coins(heap: Global, bytes: &[u8]) -> Result<Vec<u32>, AllocError>
    ensures coins { IfOk result (λ v. v.items ≡ coins_of (words bytes.now)) }
    ensures in_field { IfOk result (λ v. T (below v.items)) }
{
    let mut coins = Vec::with_capacity(heap, bytes.len() / 4)?;
    let (words, _) = bytes.as_chunks::<4>();
    coins.extend(
        words
            .iter()
            .map(|word| u32::from_be_bytes(*word))
            .filter_map(coin_of),
    )?;
    Ok(coins)
}

// The low 31 bits of a word. P is passed over, so that each value below it comes from as many words.
fn coin_of(word: u32) -> Option<u32>
    ensures { result ≡ coin_in word }
{
    let low = word & 0x7fff_ffff;
    if low == field::P { None } else { Some(low) }
}
