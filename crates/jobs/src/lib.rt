// The values that the solver takes and gives: a job, a result. Places past n play no part on the way in and are zero on
// the way out.
#![tactic(auto)]

pub mod lines;
pub mod zero;

use sizes::{N, TERMS};

// "The system is a polynomial one, a linear one (A x = b) or an eigenpair of a matrix."
#[derive(Clone, Copy, PartialEq, Eq)]
pub enum Kind {
    Poly,
    Linear,
    Eigen,
}

// A coefficient in marks, and an exponent for each unknown.
#[repr(C)]
#[derive(Clone, Copy)]
pub struct Term {
    pub coef: i64,
    pub exps: [u8; N],
}

// The first `count` of its terms are live.
#[repr(C)]
#[derive(Clone, Copy)]
pub struct Equation {
    pub count: usize,
    pub terms: [Term; TERMS],
}

// A row of a matrix, as the header has it.
#[repr(C)]
#[derive(Clone, Copy)]
pub struct Row {
    pub at: [i64; N],
}

// "job, kind, n" and, in an eigenpair's, `pin`: the coordinate, counted from 1, that is 1. n means the last.
#[derive(Clone, Copy)]
pub struct Head {
    pub number: u64,
    pub kind: Kind,
    pub n: usize,
    pub pin: usize,
}

// The starting box.
#[derive(Clone, Copy)]
pub struct Ends {
    pub lo: [i64; N],
    pub hi: [i64; N],
}

// A polynomial job has its system in `eqs`, a linear one in `rows` and `right`, an eigenpair in `rows`.
#[derive(Clone, Copy)]
pub struct Body {
    pub eqs: [Equation; N],
    pub rows: [Row; N],
    pub right: [i64; N],
}

#[derive(Clone, Copy)]
pub struct Job {
    pub head: Head,
    pub ends: Ends,
    pub inv: [Row; N],
    pub steps: u64,
    pub system: Body,
}

// The kinds of lines of a job text, in their order; Pin is the line after n of an eigenpair's, its pin or, where none
// is written, its lo; a line of the system with its place, from 0; End where no line is left.
#[derive(Clone, Copy, PartialEq, Eq)]
pub enum JobLine {
    Number,
    Kind,
    Unknowns,
    Pin,
    Lo,
    Hi,
    Inv,
    Steps,
    System(usize),
    End,
}

#[derive(Clone, Copy, PartialEq, Eq)]
pub enum Verdict {
    None,
    Unique,
    Stalled,
    Spent,
}

// What a run answers, and what a result text says. The visit is 0 "for a job run alone".
#[derive(Clone, Copy)]
pub struct Result {
    pub number: u64,
    pub visit: u64,
    pub verdict: Verdict,
    pub steps: u64,
    pub n: usize,
    pub lo: [i64; N],
    pub hi: [i64; N],
}

// The kinds of lines of a result text, in their order; End where no line is left.
#[derive(Clone, Copy, PartialEq, Eq)]
pub enum ResultLine {
    Number,
    Visit,
    Verdict,
    Steps,
    Lo,
    Hi,
    End,
}
