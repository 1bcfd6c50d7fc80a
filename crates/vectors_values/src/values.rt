// Right jobs and a right result of two unknowns with garbage in every dead place, and the same with one value changed.
use jobs::{Body, Ends, Equation, Head, Job, Kind, Result, Row, Term, Verdict};
use sizes::{N, TERMS};

// The least number that a place can hold: no sum, difference or negation of it would fit.
pub const LEAST: i64 = i64::MIN;

// The largest count.
pub const MOST: u64 = u64::MAX;

fn pair(a: i64, b: i64) -> [i64; N] {
    let mut xs = [LEAST; N];
    xs[0] = a;
    xs[1] = b;
    xs
}

fn rows(a: [i64; N], b: [i64; N]) -> [Row; N] {
    let mut m = [Row { at: [LEAST; N] }; N];
    m[0] = Row { at: a };
    m[1] = Row { at: b };
    m
}

pub fn term(coef: i64, a: u8, b: u8) -> Term {
    let mut exps = [255u8; N];
    exps[0] = a;
    exps[1] = b;
    Term { coef, exps }
}

fn equation(count: usize, first: Term, second: Term) -> Equation {
    let mut terms = [term(LEAST, 255, 255); TERMS];
    terms[0] = first;
    terms[1] = second;
    Equation { count, terms }
}

// Equations that play no part.
fn no_equations() -> [Equation; N] {
    [equation(MOST as usize, term(LEAST, 255, 255), term(0, 0, 0)); N]
}

fn no_rows() -> [Row; N] {
    [Row { at: [LEAST; N] }; N]
}

// x x = 2 and y = 1.
pub fn poly() -> Job {
    let lo = pair(65536, 0);
    let hi = pair(131072, 131072);
    let inv = rows(pair(21845, 0), pair(0, 65536));
    let mut eqs = no_equations();
    eqs[0] = equation(2, term(65536, 2, 0), term(-131072, 0, 0));
    eqs[1] = equation(2, term(65536, 0, 1), term(-65536, 0, 0));
    let rows = no_rows();
    let right = [LEAST; N];
    Job {
        head: Head {
            number: 41,
            kind: Kind::Poly,
            n: 2,
            pin: MOST as usize,
        },
        ends: Ends { lo, hi },
        inv,
        steps: 8,
        system: Body { eqs, rows, right },
    }
}

// Document 01's T11.
pub fn linear() -> Job {
    let lo = pair(-65536, -65536);
    let hi = pair(65536, 65536);
    let inv = rows(pair(32768, 0), pair(0, 16384));
    let eqs = no_equations();
    let rows = rows(pair(131072, 0), pair(0, 262144));
    let right = pair(65536, 65536);
    Job {
        head: Head {
            number: 11,
            kind: Kind::Linear,
            n: 2,
            pin: MOST as usize,
        },
        ends: Ends { lo, hi },
        inv,
        steps: 8,
        system: Body { eqs, rows, right },
    }
}

// The matrix of document 01's T12, about its eigenpair.
pub fn eigen() -> Job {
    let lo = pair(65535, 131071);
    let hi = pair(65537, 131073);
    let inv = rows(pair(-65536, 65536), pair(0, -65536));
    let eqs = no_equations();
    let rows = rows(pair(65536, 65536), pair(0, 131072));
    let right = [LEAST; N];
    Job {
        head: Head {
            number: 12,
            kind: Kind::Eigen,
            n: 2,
            pin: 2,
        },
        ends: Ends { lo, hi },
        inv,
        steps: 8,
        system: Body { eqs, rows, right },
    }
}

pub fn result() -> Result {
    let lo = pair(-3, 0);
    let hi = pair(3, 0);
    Result {
        number: 41,
        visit: 7,
        verdict: Verdict::Stalled,
        steps: 1000,
        n: 2,
        lo,
        hi,
    }
}
