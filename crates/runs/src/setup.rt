// What stays the same over a run: how many members, the weights that join their shares, and who is watched.
ghost use Rattle.std.specs.Prelude.{◌≡◌, ◌+◌, ◌≤◌, take};
ghost use Rattle.shares.specs.Weights.{weights as weights_of};

// Fifteen words and flags whatever n is, so that a setup asks for no memory.
#[derive(Drop)]
pub struct Setup {
    pub n: usize,
    pub t: usize,
    // of members 1 to 2t + 1, and some words after them
    pub weights: [u32; 15],
    pub watched: [bool; 15],
    ghost few: { n ≤ 15 },
    ghost enough: { t + t + 1 ≤ n },
    ghost weighs: { take (t + t + 1) weights ≡ weights_of (t + t + 1) },
}
