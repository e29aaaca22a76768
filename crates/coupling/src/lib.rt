// Two runs of a sheet side by side, the second with the coins that are paired with those of the first.
#![tactic(auto)]

mod appending;
mod couple;
mod drawing;
mod lending;
mod running;
mod secrets;
mod shifter;
mod stepping;

pub use couple::Couple;
pub use running::run_both;
