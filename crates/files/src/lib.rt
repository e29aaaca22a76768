// The binary files: figures, coins, the inputs of a whole circle, and orders of delivery.
#![tactic(auto)]

mod circle;
mod coins;
mod figures;
mod inputs;
mod laws;
mod lending;
mod order;
mod parts;
mod words;
mod writing;

pub use circle::read_circle_figures;
pub use coins::read_coins;
pub use figures::read_figures;
pub use inputs::{CircleInputs, read_circle_inputs};
pub use laws::{coin_words_law, figure_answers_law, passed_over_law, undo_law};
pub use lending::lend;
pub use order::read_order;
pub use writing::{write_circle_figures, write_list, write_words};
