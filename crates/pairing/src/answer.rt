// What is answered.

#[derive(Debug, PartialEq, Eq, Drop)]
pub enum Pairing {
    // the coins of the other run, one list for each member
    Coins(Vec<Vec<u32>>),
    // the place of the first opened value that differs
    OpenedDiffers(usize),
    // whose figure is the first that differs among the watched members', and its place among that member's own
    FigureDiffers(u32, usize),
    // more are watched than may be, or one who is no member
    NoPairing,
}
