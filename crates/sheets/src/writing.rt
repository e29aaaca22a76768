// Writing a sheet to bytes.
ghost use Rattle.std.specs.Prelude.{◌≡◌, ◌+◌, ◌*◌, ◌≤◌, ◌++◌, length, vec_len, vec_capacity};
ghost use Rattle.sheets.specs.Bytes.{raw_bytes, line_bytes, head_bytes, sheet_bytes};
ghost use Rattle.sheets.specs.Outcome.{AppendedBy};
ghost use Rattle.std.specs.List.{flat_map};

use crate::line::Line;
use crate::refusal::Refusal;
use crate::sheet::Sheet;

impl Line {
    // Its nine bytes.
    pub fn write(self) -> [u8; 9]
        ensures { result ≡ line_bytes self }
    {
        match self {
            Line::Input(member) => nine(1, member, 0),
            Line::Sum(a, b) => nine(2, a, b),
            Line::Times(k, a) => nine(3, k, a),
            Line::Product(a, b) => nine(4, a, b),
            Line::Open(a) => nine(5, a, 0),
        }
    }
}

fn nine(kind: u8, first: u32, second: u32) -> [u8; 9]
    ensures { result ≡ raw_bytes kind first second }
{
    let [a, b, c, d] = first.to_be_bytes();
    let [e, f, g, h] = second.to_be_bytes();
    [kind, a, b, c, d, e, f, g, h]
}

impl Sheet {
    // Appends its bytes; for want of memory none of them.
    pub fn write(&self, out: &mut Vec<u8>) -> Result<(), Refusal>
        ensures { AppendedBy (sheet_bytes self.now.n self.now.t self.now.lines.items) out.old.items out.new.items result }
    {
        let count = self.lines.len();
        out.reserve(5 + 9 * count)?;
        append(out, &head(self.n as u8, self.t as u8, count as u16));
        append_lines(out, &self.lines);
        Ok(())
    }
}

fn head(n: u8, t: u8, count: u16) -> [u8; 5]
    ensures { result ≡ head_bytes n t count }
{
    let [high, low] = count.to_be_bytes();
    [1, n, t, high, low]
}

// Appends the bytes of all lines to a vector that has room for them.
fn append_lines(out: &mut Vec<u8>, lines: &[Line])
    requires { vec_len out.old + 9 * length lines.now ≤ vec_capacity out.old }
    ensures { out.new.items ≡ out.old.items ++ flat_map line_bytes lines.now }
{
    for line in lines {
        append(out, &line.write());
    }
}

// Appends to a vector that has room, which is asked for here: a type for a vector with room would say the same.
fn append(out: &mut Vec<u8>, bytes: &[u8])
    requires { vec_len out.old + length bytes.now ≤ vec_capacity out.old }
    ensures items { out.new.items ≡ out.old.items ++ bytes.now }
    ensures len { vec_len out.new ≡ vec_len out.old + length bytes.now }
    ensures room { vec_capacity out.old ≤ vec_capacity out.new }
{
    let _ = out.extend_from_slice(bytes);
}
