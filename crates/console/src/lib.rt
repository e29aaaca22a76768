// What the programs have in common: words of the command line, files, and how a failure is told.
#![tactic(auto)]

mod failure;
mod input;
mod members;
mod numbers;
mod printing;
mod program;

pub use failure::Failure;
pub use input::{arguments, file};
pub use members::{member_set, member_words};
pub use numbers::member_number;
pub use printing::{output, write_lines};
pub use program::run_program;
