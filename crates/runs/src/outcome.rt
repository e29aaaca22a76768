// What a run gives.

// What is opened, and what the watched see, word after word.
#[derive(Drop)]
pub struct Outcome {
    pub opened: Vec<u32>,
    pub seen: Vec<u32>,
}
