// A visit to a room, by its values: a job, and its reading, which is where the job stands.
#![tactic(auto)]

ghost use Rattle.std.specs.Prelude.{◌≡◌, ◌+◌, ◌≤◌, Ok};
ghost use Rattle.sizes.specs.Sizes.{n_max, steps_max};
ghost use Rattle.checks.specs.Checks.{check_job};
ghost use Rattle.visits.specs.Visits.{opened_as, is_finished, added, next_reading, Stands};

use jobs::{Ends, Job, Result, Verdict};
use run::{Outcome, result_of, run_from};
use step::values::{box_of, ends_of};

// The reading at the opening.
pub fn first_reading(j: Job, visit: u64) -> Result
    requires { check_job j ≡ Ok tt }
    ensures { result ≡ opened_as visit j }
{
    let o = Outcome {
        verdict: Verdict::Spent,
        steps: 0,
        sides: box_of(j.ends, j.head.n),
    };
    Result {
        visit,
        ..result_of(j, o)
    }
}

// Decided, or no step is left.
pub fn is_finished(v: Verdict, steps: u64, allowance: u64) -> bool
    ensures { result ≡ is_finished v steps allowance }
{
    match v {
        Verdict::None | Verdict::Unique | Verdict::Stalled => true,
        Verdict::Spent => allowance <= steps,
    }
}

// The reading after what a run from its box came to.
#[tactic(auto, unfolding(crate::specs::Visits::added))]
fn add(r: Result, o: Outcome) -> Result
    requires { (r.n ≤ n_max) × (r.steps + o.steps ≤ steps_max + steps_max) }
    ensures { result ≡ added r o }
{
    let Ends { lo, hi } = ends_of(o.sides, r.n);
    Result {
        verdict: o.verdict,
        steps: r.steps + o.steps,
        lo,
        hi,
        ..r
    }
}

// The reading after a step call.
pub fn next_reading(j: Job, r: Result) -> Result
    requires { Stands j r }
    ensures { result ≡ next_reading j r }
{
    if is_finished(r.verdict, r.steps, j.steps) {
        return r;
    }
    let Result { lo, hi, .. } = r;
    let x = box_of(Ends { lo, hi }, j.head.n);
    let o = run_from(j, x, 1);
    add(r, o)
}
