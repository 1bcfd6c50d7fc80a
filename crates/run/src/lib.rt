// The run of a job: Krawczyk steps until one decides or the allowance is used up.
#![tactic(auto)]

ghost use Rattle.std.specs.Prelude.{◌≡◌, ◌≤◌};
ghost use Rattle.sizes.specs.Sizes.{n_max};
ghost use Rattle.intervals.specs.Places.{entry_at, side_at};
ghost use Rattle.jobs.specs.Places.{equation_at};
ghost use Rattle.checks.specs.Checks.{check_job};
ghost use Rattle.slopes.specs.Ranges.{BoxIn};
ghost use Rattle.step.specs.Ranges.{StepIn};
ghost use Rattle.run.specs.Run.{outcome, run_of};
ghost use Rattle.run.specs.Job.{run_from, outcome_of, result_of, run_job};

use checks::job::check_job;
use faults::Checked;
use intervals::Interval;
use jobs::{Ends, Equation, Job, Result, Verdict};
use sizes::N;
use slopes::Over;
use step::{Move, values};

#[derive(Clone, Copy)]
pub struct Outcome {
    pub verdict: Verdict,
    pub steps: u64,
    pub sides: [Interval; N],
}

fn ended(verdict: Verdict, steps: u64, sides: [Interval; N]) -> Outcome
    ensures { result ≡ outcome verdict steps sides }
{
    Outcome {
        verdict,
        steps,
        sides,
    }
}

// At most `allowance` steps from the box `start` on. Every step begun is counted, the deciding one too.
// F and S are made here, since a function that is handed the equations copies all of them at each step; each step makes
// them in the places of those before, which need no clearing.
fn run_steps(
    eqs: [Equation; N],
    c: [[i64; N]; N],
    start: [Interval; N],
    n: usize,
    allowance: u64,
) -> Outcome
    requires { StepIn n (equation_at eqs) (entry_at c) (side_at start) }
    ensures { result ≡ run_of n (equation_at eqs) (entry_at c) allowance 0 start }
{
    let mut x = start;
    let mut f = [Interval { lo: 0, hi: 0 }; N];
    let mut s = [[Interval { lo: 0, hi: 0 }; N]; N];
    for done in 0..allowance {
        let m = step::middles(x, n);
        for i in 0..n {
            let Over { value, slopes } = slopes::equation_over(eqs[i], m, x, n);
            f[i] = value;
            s[i] = slopes;
        }
        let k = step::image(c, x, m, f, s, n);
        let d = step::decide(x, k, n);
        let next = d.sides;
        let steps = done + 1;
        match d.what {
            Move::None => return ended(Verdict::None, steps, next),
            Move::Unique => return ended(Verdict::Unique, steps, next),
            Move::Stalled => return ended(Verdict::Stalled, steps, next),
            Move::Next => x = next,
        }
    }
    ended(Verdict::Spent, allowance, x)
}

// The same of any count from 1 on: where the run of a job and halving meet, both with the equations made.
pub fn run_system(
    eqs: [Equation; N],
    c: [[i64; N]; N],
    start: [Interval; N],
    n: usize,
    allowance: u64,
) -> Outcome
    requires step_in { StepIn n (equation_at eqs) (entry_at c) (side_at start) }
    requires le_n { 1 ≤ n }
    ensures { result ≡ run_of n (equation_at eqs) (entry_at c) allowance 0 start }
{
    let few = step::bounded(n);
    run_steps(eqs, c, start, few, allowance)
}

// At most `allowance` steps of a job whose check found nothing, from any box in range on.
pub fn run_from(j: Job, x: [Interval; N], allowance: u64) -> Outcome
    requires j_value { check_job j ≡ Ok tt }
    requires box_in { BoxIn j.head.n (side_at x) }
    ensures { result ≡ run_from j x allowance }
{
    let n = j.head.n;
    let eqs = systems::equations(j);
    let c = values::matrix(j.inv, n);
    run_system(eqs, c, x, n, allowance)
}

#[tactic(auto, unfolding(crate::specs::Job::result_of))]
pub fn result_of(j: Job, o: Outcome) -> Result
    requires { j.head.n ≤ n_max }
    ensures { result ≡ result_of j o }
{
    let n = j.head.n;
    let Ends { lo, hi } = values::ends_of(o.sides, n);
    Result {
        number: j.head.number,
        visit: 0,
        verdict: o.verdict,
        steps: o.steps,
        n,
        lo,
        hi,
    }
}

// The run of a job whose check found nothing.
pub fn accepted(j: Job) -> Result
    requires { check_job j ≡ Ok tt }
    ensures { result ≡ result_of j (outcome_of j) }
{
    let x = values::box_of(j.ends, j.head.n);
    result_of(j, run_from(j, x, j.steps))
}

// The run of a job. Every value is taken: its values are checked first, in the order of its text's lines.
#[tactic(auto, unfolding(crate::specs::Job::run_job, faults::specs::Checks::and_then))]
pub fn run(j: Job) -> Checked<Result>
    ensures { result ≡ run_job j }
{
    check_job(j)?;
    Ok(accepted(j))
}
