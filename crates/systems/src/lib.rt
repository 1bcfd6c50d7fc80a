// The equations of a job of each kind.
#![tactic(auto)]

ghost use Rattle.std.specs.Prelude.{◌≡◌, ℕ, ◌≤◌};
ghost use Rattle.integers.specs.Ranges.{Within};
ghost use Rattle.lists.specs.Loops.{tab};
ghost use Rattle.sizes.specs.Sizes.{n_max, entry_max};
ghost use Rattle.intervals.specs.Places.{number_at};
ghost use Rattle.jobs.specs.Places.{equation_at};
ghost use Rattle.jobs.specs.Zero.{zero_equation};
ghost use Rattle.systems.specs.Kinds.{unit_e, vector_e, eigen_e, row_coef, linear_equation};
ghost use Rattle.systems.specs.Kinds.{eigen_equation, equations_of};
ghost use Rattle.systems.specs.Parts.{EntriesIn, JobIn};

use jobs::zero::{zero_equation, zero_term};
use jobs::{Equation, Job, Kind, Term};
use lists::filled;
use sizes::{MARK, N};

// The exponent of unknown k where unknown t stands alone.
#[tactic(auto, unfolding(crate::specs::Kinds::unit_e))]
pub fn unit(t: usize, k: usize) -> u8
    ensures { result ≡ unit_e t k }
{
    if k == t { 1 } else { 0 }
}

// The exponent of unknown k in coordinate t of an eigenvector whose coordinate p is 1.
#[tactic(auto, unfolding(crate::specs::Kinds::vector_e))]
pub fn coordinate(p: usize, t: usize, k: usize) -> u8
    ensures { result ≡ vector_e p t k }
{
    if t == p { 0 } else { unit(t, k) }
}

// The exponent of unknown k in term t of row i of an eigenpair: its coordinate, or L times coordinate i in the term
// after the row.
pub fn eigen_exponent(t: usize, i: usize, p: usize, k: usize, n: usize) -> u8
    ensures { result ≡ eigen_e n p i t k }
{
    if t < n {
        coordinate(p, t, k)
    } else {
        unit(p, k) + coordinate(p, i, k)
    }
}

// Term t of a row's equation: an entry of the row, or minus b after them.
pub fn row_term(row: [i64; N], b: i64, t: usize, n: usize, exps: [u8; N]) -> Term
    requires room { n ≤ n_max }
    requires b_in { Within b entry_max }
    ensures { result ≡ record { coef = row_coef n (number_at row) b t; exps = exps } }
{
    if t < n {
        return Term { coef: row[t], exps };
    }
    Term { coef: -b, exps }
}

// "Linear: equation i is the sum of a(i,j) x(j), minus b(i)."
pub fn linear_equation(row: [i64; N], right: i64, n: usize) -> Equation
    requires room { n ≤ n_max }
    requires b_in { Within right entry_max }
    ensures { result ≡ linear_equation n (number_at row) right }
{
    let terms = filled(
        zero_term(),
        n + 1,
        |t| -> Term
            requires room { n ≤ n_max }
            requires b_in { Within right entry_max }
        { row_term(row, right, t, n, filled(0, n, |k| unit(t, k))) },
    );
    Equation {
        count: n + 1,
        terms,
    }
}

// Row i of an eigenpair whose vector has coordinate p set to 1: the row's terms, minus L x(i) as a term of its own.
pub fn eigen_equation(row: [i64; N], i: usize, p: usize, n: usize) -> Equation
    requires { n ≤ n_max }
    ensures { result ≡ eigen_equation n p (number_at row) i }
{
    let terms = filled(
        zero_term(),
        n + 1,
        |t| -> Term
            requires { n ≤ n_max }
        {
            row_term(
                row,
                MARK,
                t,
                n,
                filled(0, n, |k| eigen_exponent(t, i, p, k, n)),
            )
        },
    );
    Equation {
        count: n + 1,
        terms,
    }
}

// The first n of them, and zero past n. All are copied at once: one by one, each would be copied twice.
fn poly_equations(eqs: [Equation; N], n: usize) -> [Equation; N]
    requires { n ≤ n_max }
    ensures { result ≡ tab n_max n zero_equation (equation_at eqs) }
{
    let mut kept = eqs;
    kept[n..].fill(zero_equation());
    kept
}

// The equations of a job. Each kind has a loop of its own, over that part of the job alone: a loop that asks for the
// kind at each equation copies the part at each.
pub fn equations(j: Job) -> [Equation; N]
    requires { JobIn j }
    ensures { result ≡ equations_of j }
{
    let n = j.head.n;
    let system = &j.system;
    match j.head.kind {
        Kind::Poly => poly_equations(system.eqs, n),
        Kind::Linear => filled(
            zero_equation(),
            n,
            |i| linear_equation(system.rows[i].at, system.right[i], n),
        ),
        Kind::Eigen => {
            let p = j.head.pin - 1;
            filled(
                zero_equation(),
                n,
                |i| eigen_equation(system.rows[i].at, i, p, n),
            )
        }
    }
}
