// A sheet, with what every user of it needs to know.
ghost use Rattle.std.specs.Prelude.{◌+◌, ◌<◌, ◌≤◌, T, vec_len};
ghost use Rattle.sheets.specs.Lines.{good};
ghost use Rattle.sheets.specs.Reading.{inputs};

use crate::line::Line;

// For n members, of whom any t together are to learn nothing. Its lines name only members and values that are there.
#[derive(Drop)]
pub struct Sheet {
    pub(crate) n: usize,
    pub(crate) t: usize,
    pub(crate) lines: Vec<Line>,
    ghost few: { n ≤ 15 },
    ghost enough: { t + t + 1 ≤ n },
    ghost some: { 0 < vec_len lines },
    ghost short: { vec_len lines ≤ 4096 },
    ghost well: { T (good n 0 lines.items) },
    ghost given: { inputs lines.items ≤ 1024 },
}
