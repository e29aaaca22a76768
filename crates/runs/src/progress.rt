// What a run has made so far.
use crate::row::Row;
use sheets::Lists;

// The figures that no line has taken yet, a row for each value, what is opened, and what the watched see, word after
// word. Rows are found by the numbers of their values, as the lines of a sheet name them.
#[derive(Drop)]
pub struct Progress<'a> {
    pub figures: Lists<'a>,
    pub held: Vec<Row>,
    pub opened: Vec<u32>,
    pub seen: Vec<u32>,
}
