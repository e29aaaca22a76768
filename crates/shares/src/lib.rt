// Shamir's secret sharing: dealing a number to n members under t coins, and joining their shares again. Coins and shares
// are lent slices of words, so each function asks that what it is lent lies below P.
#![tactic(auto)]

mod dealing;
mod joining;
mod laws;

pub use dealing::{deal, share, value};
pub use joining::{fill_weights, join};
pub use laws::{linearity_law, recombine_law, shared_law};

#[cfg(test)]
mod tests;
