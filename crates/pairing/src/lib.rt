// The coins of another story: those of a run with other figures that looks the same to the watched.
#![tactic(auto)]

mod answer;
mod calling;
mod concluding;
mod counting;
mod differing;
mod judging;
mod lacking;
mod laws;

pub use answer::Pairing;
pub use calling::pair;
pub use laws::{judged_law, neither_law};
