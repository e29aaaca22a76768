// What both runs have in common.
use runs::Setup;

// The setup, and the mask by which the coins of the second run are shifted.
#[derive(Drop)]
pub(crate) struct Shifter {
    pub setup: Setup,
    pub mask: [u32; 8],
}
