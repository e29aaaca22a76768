// Writing words, lists with their counts, and the figures of a circle.
ghost use Rattle.std.specs.Prelude.{◌≡◌, ◌+◌, ◌*◌, ◌≤◌, true, false, T, ◌++◌, take, map, length, IfOk, IfErr, vec_items, vec_len, vec_capacity};
ghost use Rattle.sheets.specs.Bytes.{word_bytes};
ghost use Rattle.sheets.specs.declared.refusal.Refusal.TheVariants.{OutOfRange};
ghost use Rattle.files.specs.Answers.{UnlessMemory};
ghost use Rattle.files.specs.Writing.{bytes_of, list_bytes, circle_bytes, count_fits, counts_fit, Wrote};

use sheets::Refusal;

// Each word as four bytes, the high byte first. Nothing is written where memory runs out.
pub fn write_words(words: &[u32], out: &mut Vec<u8>) -> Result<(), Refusal>
    ensures { Wrote true out.old.items (bytes_of words.now) out.new.items result }
{
    out.reserve(words.len().checked_mul(4).ok_or(Refusal::NoMemory)?)?;
    put_words(words, out);
    Ok(())
}

// The figures of a circle: for each member the count and the figures. All is written, or nothing.
pub fn write_circle_figures(lists: &[Vec<u32>], out: &mut Vec<u8>) -> Result<(), Refusal>
    ensures { Wrote (counts_fit (map vec_items lists.now)) out.old.items (circle_bytes (map vec_items lists.now)) out.new.items result }
{
    let start = out.len();
    let written = write_lists(lists, out);
    if written.is_err() {
        out.truncate(start);
    }
    written
}

// The lists after their counts, up to one that is refused.
fn write_lists(lists: &[Vec<u32>], out: &mut Vec<u8>) -> Result<(), Refusal>
    ensures all { IfOk result (λ _. T (counts_fit (map vec_items lists.now)) × (out.new.items ≡ out.old.items ++ circle_bytes (map vec_items lists.now))) }
    ensures refused { IfErr result (λ e. UnlessMemory e ((e ≡ OutOfRange) × (counts_fit (map vec_items lists.now) ≡ false))) }
    ensures kept { take (length out.old.items) out.new.items ≡ out.old.items }
{
    for list in lists {
        write_list(list, out)?;
    }
    Ok(())
}

// A list after its count, which is refused where it does not fit a word.
pub fn write_list(list: &[u32], out: &mut Vec<u8>) -> Result<(), Refusal>
    ensures { Wrote (count_fits list.now) out.old.items (list_bytes list.now) out.new.items result }
{
    let count = u32::try_from(list.len()).map_err(|_| Refusal::OutOfRange)?;
    out.reserve(4 + list.len() * 4)?;
    put_word(count, out);
    put_words(list, out);
    Ok(())
}

// The words, for which there is room. It is asked for here: a type for a vector with room would say the same.
fn put_words(words: &[u32], out: &mut Vec<u8>)
    requires { vec_len out.old + length words.now * 4 ≤ vec_capacity out.old }
    ensures { out.new.items ≡ out.old.items ++ bytes_of words.now }
{
    for word in words {
        put_word(*word, out);
    }
}

// A word, for which there is room.
fn put_word(word: u32, out: &mut Vec<u8>)
    requires { vec_len out.old + 4 ≤ vec_capacity out.old }
    ensures items { out.new.items ≡ out.old.items ++ word_bytes word }
    ensures len { vec_len out.new ≡ vec_len out.old + 4 }
    ensures room { vec_capacity out.new ≡ vec_capacity out.old }
{
    for byte in word.to_be_bytes() {
        out.push_reserved(byte);
    }
}
