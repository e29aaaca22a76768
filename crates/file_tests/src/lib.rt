// Tests of the crate `files`, in a crate of their own so that they are not proved with it again and again.
#![tactic(auto)]

#[cfg(test)]
mod tests;
