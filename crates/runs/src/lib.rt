// A sheet done on shares, for all members in memory.
#![tactic(auto)]

mod bare;
mod dealing;
mod doing;
mod inputs;
mod laws;
mod member_lists;
mod noting;
mod opening;
mod outcome;
mod preparing;
mod products;
mod progress;
mod row;
mod running;
mod setup;

pub use bare::do_line;
pub use laws::{alike_law, enough_law, fewer_law, right_law};
pub use member_lists::list_of;
pub use outcome::Outcome;
pub use progress::Progress;
pub use row::Row;
pub use running::run;
pub use setup::Setup;
