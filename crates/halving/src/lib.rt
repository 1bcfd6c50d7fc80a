// All closing positions: a box whose run decides nothing is cut in two, and each half is run in its turn.
#![tactic(auto)]

ghost use Rattle.std.specs.Prelude.{◌≡◌, ◌+◌, ◌*◌, ◌^◌, ◌≤◌, length, nat_abs, Ok};
ghost use Rattle.sizes.specs.Sizes.{n_max, depth_max};
ghost use Rattle.intervals.specs.Places.{entry_at, side_at};
ghost use Rattle.jobs.specs.Places.{equation_at};
ghost use Rattle.faults.specs.Checks.{and_then};
ghost use Rattle.checks.specs.Checks.{check_job};
ghost use Rattle.slopes.specs.Ranges.{BoxIn};
ghost use Rattle.step.specs.Ranges.{StepIn};
ghost use Rattle.halving.specs.Boxes.{listed_as, boxes_by, boxes_of};
ghost use Rattle.halving.specs.Parts.{undecided_part, part_of, run_by, ran_as};
ghost use Rattle.halving.specs.Lists.{listed_places, Put, Lists, ListsIn};
ghost use Rattle.halving.specs.Halving.{depth_status, room_status, halve_status, Halves};

use checks::job::check_job;
use edges::{high_half, is_wide, low_half};
use faults::{Checked, Fault, bad_unless, on_line, refused};
use intervals::Interval;
use jobs::{Equation, Job, Verdict};
use run::{Outcome, run_system};
use sizes::{BOXES, DEPTH, N};
use step::values;

// Numbers of a listed box, whatever n is: unique or open, the low ends, the high ends.
pub const LISTED: usize = 1 + N + N;

// Those of as many boxes as can be listed.
pub const NUMBERS: usize = LISTED * BOXES;

// What the runs of all boxes of a job share: its equations and its inverse as a step takes them, n, and the allowance.
#[derive(Clone, Copy)]
pub struct Shared {
    pub eqs: [Equation; N],
    pub c: [[i64; N]; N],
    pub n: usize,
    pub steps: u64,
}

// What becomes of a box that was run.
#[derive(Clone, Copy)]
pub enum Part {
    Dropped,
    Unique,
    Open,
    Cut,
}

// The same, with the box that the run returned.
#[derive(Clone, Copy)]
pub struct Returned {
    pub part: Part,
    pub sides: [Interval; N],
}

// A box that was not decided.
#[tactic(auto, unfolding(crate::specs::Parts::undecided_part))]
fn undecided(x: [Interval; N], n: usize, depth: u64) -> Part
    requires box_in { BoxIn n (side_at x) }
    requires le_n { 1 ≤ n }
    ensures { result ≡ undecided_part n x depth }
{
    if depth != 0 && is_wide(x, n) {
        Part::Cut
    } else {
        Part::Open
    }
}

#[tactic(auto, unfolding(crate::specs::Parts::part_of))]
fn part_of(verdict: Verdict, x: [Interval; N], n: usize, depth: u64) -> Part
    requires box_in { BoxIn n (side_at x) }
    requires le_n { 1 ≤ n }
    ensures { result ≡ part_of verdict n x depth }
{
    match verdict {
        Verdict::None => Part::Dropped,
        Verdict::Unique => Part::Unique,
        Verdict::Stalled | Verdict::Spent => undecided(x, n, depth),
    }
}

// The run from the box x on.
fn ran(job: &Shared, x: [Interval; N], depth: u64) -> Returned
    requires step_in { StepIn job.now.n (equation_at job.now.eqs) (entry_at job.now.c) (side_at x) }
    requires le_n { 1 ≤ job.now.n }
    ensures { result ≡ ran_as (run_by job.now x) job.now.n depth }
{
    let n = job.n;
    let Outcome { verdict, sides, .. } = run_system(job.eqs, job.c, x, n, job.steps);
    let part = part_of(verdict, sides, n, depth);
    Returned { part, sides }
}

fn put_row(list: &mut [i64], at: usize, row: [i64; N]) -> usize
    requires { at + n_max ≤ length list.old }
    ensures { Put list.old list.new at result row }
{
    list[at..at + N].copy_from_slice(&row);
    at + N
}

// One box behind the first `at`; answers how many stand there then.
fn put_box(list: &mut [i64], at: usize, unique: bool, x: [Interval; N], n: usize) -> usize
    requires n_le_n_max { n ≤ n_max }
    requires at_in_bounds { listed_places * (at + 1) ≤ length list.old }
    ensures { Lists n list.old list.new at result (listed_as unique x) }
{
    let first = LISTED * at;
    let ends = values::ends_of(x, n);
    list[first] = i64::from(unique);
    let next = put_row(list, first + 1, ends.lo);
    put_row(list, next, ends.hi);
    at + 1
}

// The boxes that come of x, behind the first `at`.
fn list_from(job: &Shared, x: [Interval; N], depth: u64, list: &mut [i64], at: usize) -> usize
    requires { ListsIn job.now x depth (length list.old) at }
    ensures { Lists job.now.n list.old list.new at result (boxes_by (run_by job.now) job.now.n depth x) }
{
    let n = job.n;
    let r = ran(job, x, depth);
    let sides = r.sides;
    match r.part {
        Part::Dropped => at,
        Part::Unique => put_box(list, at, true, sides, n),
        Part::Open => put_box(list, at, false, sides, n),
        Part::Cut => {
            let next = list_from(job, low_half(sides, n), depth - 1, list, at);
            list_from(job, high_half(sides, n), depth - 1, list, next)
        }
    }
}

// The depth as a count.
fn depth_number(depth: i64) -> Checked<u64>
    ensures { result ≡ and_then (depth_status depth) (Ok (nat_abs depth)) }
{
    if depth < 0 || DEPTH < depth as u64 {
        return refused(Fault::Steps, 0);
    }
    Ok(depth as u64)
}

fn room_status(depth: u64, room: usize) -> Checked<()>
    requires { depth ≤ depth_max }
    ensures { result ≡ room_status depth room }
{
    let boxes: usize = 1 << depth;
    on_line(bad_unless(boxes <= room / LISTED, Fault::ShortBuffer), 0)
}

// How deep a job is halved into a list of `room` numbers, or what refuses it.
#[tactic(auto, unfolding(crate::specs::Halving::halve_status, faults::specs::Checks::and_then))]
fn halve_depth(j: Job, depth: i64, room: usize) -> Checked<u64>
    ensures { result ≡ and_then (halve_status j depth room) (Ok (nat_abs depth)) }
{
    check_job(j)?;
    let deep = depth_number(depth)?;
    room_status(deep, room)?;
    Ok(deep)
}

// The boxes of a job whose check found nothing. Its equations are made once for all of them.
fn list_job(j: Job, depth: u64, list: &mut [i64]) -> usize
    requires j_value { check_job j ≡ Ok tt }
    requires depth_in_bounds { listed_places * 2 ^ depth ≤ length list.old }
    ensures { Lists j.head.n list.old list.new 0 result (boxes_of j depth) }
{
    let n = j.head.n;
    let eqs = systems::equations(j);
    let c = values::matrix(j.inv, n);
    let job = Shared {
        eqs,
        c,
        n,
        steps: j.steps,
    };
    list_from(&job, values::box_of(j.ends, n), depth, list, 0)
}

// Every value is taken: a fault is returned and touches no number of the list.
pub fn halve(j: Job, depth: i64, list: &mut [i64]) -> Checked<usize>
    ensures { Halves j depth list.old list.new result }
{
    let deep = halve_depth(j, depth, list.len())?;
    Ok(list_job(j, deep, list))
}
