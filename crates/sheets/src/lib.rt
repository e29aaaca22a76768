// Sheets: arithmetic circuits, line by line.
#![tactic(auto)]

mod drawing;
mod judging;
mod laws;
mod line;
mod lists;
mod meaning;
mod needs;
mod numbers;
mod reading;
mod refusal;
mod sheet;
mod taking;
mod writing;

pub use drawing::draw;
pub use laws::{judgement_law, reread_law, rewritten_law};
pub use line::Line;
pub use lists::Lists;
pub use needs::figures_in;
pub use numbers::{are_all_below, are_below, each_below};
pub use refusal::Refusal;
pub use sheet::Sheet;
