// The step in two operations, for whoever wants to see the image before it is used: K of a job and a box, and what X
// and K decide. Every value is taken: what is handed in is checked first.
#![tactic(auto)]

ghost use Rattle.std.specs.Prelude.{◌≡◌, ◌≤◌};
ghost use Rattle.sizes.specs.Sizes.{n_max};
ghost use Rattle.intervals.specs.Places.{entry_at, side_at};
ghost use Rattle.jobs.specs.Places.{equation_at};
ghost use Rattle.step.specs.Step.{image_box};
ghost use Rattle.step.specs.Ranges.{StepIn};
ghost use Rattle.one_step.specs.OneStep.{ends_check, image_status, image_ends, gives_image};
ghost use Rattle.one_step.specs.OneStep.{decide_check, moves_to, gives_move};

use checks::job::{check_job, unknowns_check};
use faults::{Checked, Fault, bad_unless, on_line};
use intervals::Interval;
use jobs::{Ends, Equation, Job};
use sizes::{END, IMAGE, N};
use slopes::Over;
use step::{Move, values};
use term_checks::ranges::{all_ordered, all_within};

// What is decided, with the box that every decision leaves.
#[derive(Clone, Copy)]
pub struct Decided {
    pub what: Move,
    pub ends: Ends,
}

#[tactic(auto, unfolding(crate::specs::OneStep::ends_check, faults::specs::Checks::first_of))]
fn ends_check(n: usize, e: Ends, most: i64) -> Result<(), Fault>
    requires { n ≤ n_max }
    ensures { result ≡ ends_check n most e }
{
    bad_unless(all_within(e.lo, n, most), Fault::Beyond)?;
    bad_unless(all_within(e.hi, n, most), Fault::Beyond)?;
    bad_unless(all_ordered(e.lo, e.hi, n), Fault::Crossed)
}

#[tactic(auto, unfolding(crate::specs::OneStep::image_status, faults::specs::Checks::and_then))]
fn image_status(j: Job, e: Ends) -> Checked<()>
    ensures { result ≡ image_status j e }
{
    check_job(j)?;
    on_line(ends_check(j.head.n, e, END), 0)
}

// F and S are filled as in a run (run::run_steps, which says why it has the same loop).
fn image_box(eqs: [Equation; N], c: [[i64; N]; N], x: [Interval; N], n: usize) -> [Interval; N]
    requires { StepIn n (equation_at eqs) (entry_at c) (side_at x) }
    ensures { result ≡ image_box n (equation_at eqs) (entry_at c) x }
{
    let m = step::middles(x, n);
    let mut f = [Interval { lo: 0, hi: 0 }; N];
    let mut s = [[Interval { lo: 0, hi: 0 }; N]; N];
    for i in 0..n {
        let Over { value, slopes } = slopes::equation_over(eqs[i], m, x, n);
        f[i] = value;
        s[i] = slopes;
    }
    step::image(c, x, m, f, s, n)
}

fn image_ends(j: Job, e: Ends) -> Ends
    requires { image_status j e ≡ Ok tt }
    ensures { result ≡ image_ends j e }
{
    let n = j.head.n;
    let eqs = systems::equations(j);
    let c = values::matrix(j.inv, n);
    let x = values::box_of(e, n);
    let k = image_box(eqs, c, x, step::bounded(n));
    values::ends_of(k, n)
}

// "one operation gives K for a job and a box"
#[tactic(auto, unfolding(crate::specs::OneStep::gives_image, faults::specs::Checks::and_then))]
pub fn image(j: Job, e: Ends) -> Checked<Ends>
    ensures { result ≡ gives_image j e }
{
    image_status(j, e)?;
    Ok(image_ends(j, e))
}

#[tactic(auto, unfolding(crate::specs::OneStep::decide_check, faults::specs::Checks::first_of))]
fn decide_check(n: usize, x: Ends, k: Ends) -> Result<(), Fault>
    ensures { result ≡ decide_check n x k }
{
    unknowns_check(n)?;
    ends_check(n, x, END)?;
    ends_check(n, k, IMAGE)
}

#[tactic(auto, unfolding(crate::specs::OneStep::moves_to))]
fn moved(n: usize, x: Ends, k: Ends) -> Decided
    requires { n ≤ n_max }
    ensures { result ≡ moves_to n x k }
{
    let d = step::decide(values::box_of(x, n), values::box_of(k, n), n);
    Decided {
        what: d.what,
        ends: values::ends_of(d.sides, n),
    }
}

// "the other takes X and K and gives the verdict or the next box"
#[tactic(auto, unfolding(crate::specs::OneStep::gives_move, faults::specs::Checks::and_then))]
pub fn decide(n: usize, x: Ends, k: Ends) -> Checked<Decided>
    ensures { result ≡ gives_move n x k }
{
    on_line(decide_check(n, x, k), 0)?;
    Ok(moved(n, x, k))
}
