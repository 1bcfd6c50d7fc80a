// A job or a result with one value changed. The place is one of the first two of its kind. (Written in place, as
// `j.ends.lo[1] = lo`, a change took the check more than ten minutes: tried, and the proof did not close.)
use jobs::{Equation, Job, Result, Term};
use sizes::TERMS;

pub fn number(j: Job, number: u64) -> Job {
    let mut r = j;
    r.head.number = number;
    r
}

pub fn unknowns(j: Job, n: usize) -> Job {
    let mut r = j;
    r.head.n = n;
    r
}

pub fn pin(j: Job, pin: usize) -> Job {
    let mut r = j;
    r.head.pin = pin;
    r
}

pub fn steps(j: Job, steps: u64) -> Job {
    let mut r = j;
    r.steps = steps;
    r
}

// The ends of the second unknown.
pub fn ends(j: Job, lo: i64, hi: i64) -> Job {
    let mut r = j;
    let mut e = r.ends;
    e.lo[1] = lo;
    e.hi[1] = hi;
    r.ends = e;
    r
}

// The last live entry of the inverse.
pub fn inverse(j: Job, v: i64) -> Job {
    let mut r = j;
    let mut row = r.inv[1];
    row.at[1] = v;
    r.inv[1] = row;
    r
}

// All places of the first equation, and how many of them are live.
pub fn first_terms(j: Job, t: Term, count: usize) -> Job {
    let mut r = j;
    let mut system = r.system;
    let terms = [t; TERMS];
    system.eqs[0] = Equation { count, terms };
    r.system = system;
    r
}

// The first term of the first equation.
pub fn first_term(j: Job, t: Term) -> Job {
    let mut r = j;
    let mut system = r.system;
    let mut q = system.eqs[0];
    q.terms[0] = t;
    system.eqs[0] = q;
    r.system = system;
    r
}

// The last term of the second equation.
pub fn last_term(j: Job, t: Term) -> Job {
    let mut r = j;
    let mut system = r.system;
    let mut q = system.eqs[1];
    q.terms[1] = t;
    system.eqs[1] = q;
    r.system = system;
    r
}

// The last live entry of the matrix.
pub fn entry(j: Job, v: i64) -> Job {
    let mut r = j;
    let mut system = r.system;
    let mut row = system.rows[1];
    row.at[1] = v;
    system.rows[1] = row;
    r.system = system;
    r
}

// The first right side.
pub fn right(j: Job, v: i64) -> Job {
    let mut r = j;
    let mut system = r.system;
    system.right[0] = v;
    r.system = system;
    r
}

pub fn result_number(a: Result, number: u64) -> Result {
    let mut r = a;
    r.number = number;
    r
}

pub fn result_visit(a: Result, visit: u64) -> Result {
    let mut r = a;
    r.visit = visit;
    r
}

pub fn result_unknowns(a: Result, n: usize) -> Result {
    let mut r = a;
    r.n = n;
    r
}

pub fn result_steps(a: Result, steps: u64) -> Result {
    let mut r = a;
    r.steps = steps;
    r
}

pub fn result_ends(a: Result, lo: i64, hi: i64) -> Result {
    let mut r = a;
    r.lo[1] = lo;
    r.hi[1] = hi;
    r
}
