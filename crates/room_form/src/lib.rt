// The table of eight rooms: what stands in its bytes, and what its five calls answer and leave.
#![tactic(auto)]

use jobs::{Job, Result};

// A job, and where it stands.
#[derive(Clone, Copy)]
pub struct Visit {
    pub job: Job,
    pub reading: Result,
}

// What stands in a slot.
#[derive(Clone, Copy)]
pub enum Room {
    Free,
    Taken(Visit),
    Broken,
}

// What opening answers: the slot, and the number of the visit to it.
#[derive(Clone, Copy)]
pub struct Opened {
    pub slot: usize,
    pub visit: u64,
}
