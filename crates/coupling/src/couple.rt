// What both runs give.

// What the first run opens, what the second does, and the second's coins, one list for each member.
#[derive(Drop)]
pub struct Couple {
    pub opened: Vec<u32>,
    pub other_opened: Vec<u32>,
    pub coins: Vec<Vec<u32>>,
}
