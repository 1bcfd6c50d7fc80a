// What each kind of a text's lines says, and how it is written.
#![tactic(auto)]

use sizes::N;

// A row with its right side.
#[derive(Clone, Copy)]
pub struct Sided {
    pub row: [i64; N],
    pub side: i64,
}
