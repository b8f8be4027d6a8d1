//! What the proofs say of merges and of viewers. No value of these types is made.
use eco_histories::registry::HistoryMark;
use eco_stages::{Report, Stage};
use eco_world::World;

// A merge, as histories have it: how many indices it admitted, the commands of its stages, in order, and what they answered.
pub struct Merge {
    pub admitted: u32,
    pub commands: Stage,
    pub outcomes: Report,
}

// What a view knows: the opening world, and which history it is.
pub struct Knows {
    pub known: bool,
    pub start: World,
    pub mark: HistoryMark,
}
