// What is read so far of a job text, and one line more.
#![tactic(auto)]

pub mod line;
pub mod state;
pub mod system;

use jobs::{Equation, Row};
use sizes::N;

// What the lines so far say, in numbers alone, for C carries them from call to call: the first bad line's fault and
// number, 0 where there is none; the place of the next line in their order; the parts of the job.
#[repr(C)]
#[derive(Clone, Copy)]
pub struct Read {
    pub fault: u64,
    pub line: u64,
    pub next: u64,
    pub number: u64,
    pub kind: u64,
    pub n: usize,
    pub pin: usize,
    pub lo: [i64; N],
    pub hi: [i64; N],
    pub inv: [Row; N],
    pub steps: u64,
    pub eqs: [Equation; N],
    pub rows: [Row; N],
    pub right: [i64; N],
}
