// What may be wrong with lines that are well formed.
ghost use Rattle.std.specs.Prelude.{◌≡◌, ◌+◌, ◌<◌, ◌≤◌, length, None, Some, MatchResult, count_by};
ghost use Rattle.std.specs.List.{list_any};
ghost use Rattle.sheets.specs.Reading.{any_undefined, bad_shape, is_input, out_of_range, verdict_on};

use crate::line::Line;
use crate::refusal::Refusal;

// Too many members, or too few for the threshold, or too few or too many lines.
pub(crate) fn is_bad_shape(n: u8, t: u8, count: usize) -> bool
    ensures { result ≡ bad_shape n t count }
{
    n > 15 || t as u32 + t as u32 + 1 > n as u32 || count == 0 || count > 4096
}

// What is wrong with lines for n members, the lowest number first.
pub(crate) fn judge(n: u32, lines: &[Line]) -> Result<(), Refusal>
    requires { length lines.now < 65536 }
    ensures { MatchResult result (λ _. verdict_on n lines.now ≡ None) (λ e. verdict_on n lines.now ≡ Some e) }
{
    if names_no_member(n, lines) {
        return Err(Refusal::OutOfRange);
    }
    if names_no_value(lines) {
        return Err(Refusal::NotMadeYet);
    }
    if inputs(lines) > 1024 {
        return Err(Refusal::TooManyInputs);
    }
    Ok(())
}

fn names_no_member(n: u32, lines: &[Line]) -> bool
    ensures { result ≡ list_any (out_of_range n) lines.now }
{
    lines.iter().any(|line| line.is_out_of_range(n))
}

// A loop, since each line is judged by how many values the lines before it make.
fn names_no_value(lines: &[Line]) -> bool
    requires { length lines.now < 65536 }
    ensures { result ≡ any_undefined 0 lines.now }
{
    let mut made = 0;
    for line in lines {
        if line.is_undefined(made) {
            return true;
        }
        made = line.values_after(made);
    }
    false
}

fn inputs(lines: &[Line]) -> usize
    ensures { result ≡ count_by is_input lines.now }
{
    lines.iter().filter(|line| line.is_input()).count()
}
