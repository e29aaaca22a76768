// Sets of members, as the words of the command line name them.
ghost use Rattle.std.specs.Prelude.{◌≡◌, map, nat_eq, string_bytes};
ghost use Rattle.std.specs.List.{list_any};
ghost use Rattle.console.specs.Numbers.{outside, SetOf, WordsAs};

use crate::failure::Failure;
use crate::numbers::member_number;
use std::alloc::Global;
use std::array;

// The numbers in the words, or none if a word is no decimal number.
pub fn member_words(heap: Global, words: &[String]) -> Result<Option<Vec<u32>>, Failure>
    ensures { WordsAs (map string_bytes words.now) result }
{
    let mut numbers = Vec::new(heap);
    for word in words {
        let Some(number) = member_number(word.as_bytes()) else {
            return Ok(None);
        };
        numbers.push(number)?;
    }
    Ok(Some(numbers))
}

fn is_outside(n: usize, number: u32) -> bool
    ensures { result ≡ outside n number }
{
    number == 0 || number as usize > n.min(15)
}

fn is_any_outside(n: usize, numbers: &[u32]) -> bool
    ensures { result ≡ list_any (outside n) numbers.now }
{
    numbers.iter().any(|number| is_outside(n, *number))
}

fn is_among(member: usize, numbers: &[u32]) -> bool
    ensures { result ≡ list_any (λ number. nat_eq number member) numbers.now }
{
    numbers.iter().any(|number| *number as usize == member)
}

// The set of these members among 1 to n, or none if one is no member. Order and repetition don't matter. Fifteen flags
// whatever n is, as a run takes them, so that a set asks for no memory.
pub fn member_set(n: usize, numbers: &[u32]) -> Option<[bool; 15]>
    ensures { SetOf n numbers.now result }
{
    if is_any_outside(n, numbers) {
        return None;
    }
    Some(array::from_fn(|k| is_among(k + 1, numbers)))
}
