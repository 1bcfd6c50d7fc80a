// The zero values, which stand beside a fault and past n.
ghost use Rattle.std.specs.Prelude.{◌≡◌};
ghost use Rattle.jobs.specs.Zero.{zero_term, zero_equation, zero_row, zero_head, zero_ends, zero_body};
ghost use Rattle.jobs.specs.Zero.{no_job, no_result};

use crate::{Body, Ends, Equation, Head, Job, Kind, Result, Row, Term, Verdict};
use sizes::{N, TERMS};

pub fn zero_term() -> Term
    ensures { result ≡ zero_term }
{
    Term {
        coef: 0,
        exps: [0; N],
    }
}

pub fn zero_equation() -> Equation
    ensures { result ≡ zero_equation }
{
    Equation {
        count: 0,
        terms: [zero_term(); TERMS],
    }
}

pub fn zero_row() -> Row
    ensures { result ≡ zero_row }
{
    Row { at: [0; N] }
}

pub fn zero_head() -> Head
    ensures { result ≡ zero_head }
{
    Head {
        number: 0,
        kind: Kind::Poly,
        n: 0,
        pin: 0,
    }
}

pub fn zero_ends() -> Ends
    ensures { result ≡ zero_ends }
{
    Ends {
        lo: [0; N],
        hi: [0; N],
    }
}

pub fn zero_body() -> Body
    ensures { result ≡ zero_body }
{
    Body {
        eqs: [zero_equation(); N],
        rows: [zero_row(); N],
        right: [0; N],
    }
}

pub fn no_job() -> Job
    ensures { result ≡ no_job }
{
    Job {
        head: zero_head(),
        ends: zero_ends(),
        inv: [zero_row(); N],
        steps: 0,
        system: zero_body(),
    }
}

pub fn no_result() -> Result
    ensures { result ≡ no_result }
{
    Result {
        number: 0,
        visit: 0,
        verdict: Verdict::None,
        steps: 0,
        n: 0,
        lo: [0; N],
        hi: [0; N],
    }
}
