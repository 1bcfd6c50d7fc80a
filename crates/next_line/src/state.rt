// What the numbers stand for, and their limits. They stay numbers, for C carries them from call to call.
ghost use Rattle.std.specs.Prelude.{◌≡◌, ◌≤◌};
ghost use Rattle.next_line.specs.State.{kind_number, kind_of, place_of, line_in, none_read, head_of, job_of};
ghost use Rattle.next_line.specs.Limits.{place_max, read_fits};

use crate::Read;
use faults::FAULTS;
use jobs::zero::{zero_equation, zero_row};
use jobs::{Body, Ends, Head, Job, JobLine, Kind};
use sizes::N;

// The place of the last line of a system, and the largest number of a line.
const PLACES: u64 = 8 + N as u64;

const LINES: u64 = 9 + N as u64;
// The last number of a kind.
const KINDS: u64 = 2;

pub fn kind_number(kind: Kind) -> u64
    ensures { result ≡ kind_number kind }
{
    match kind {
        Kind::Poly => 0,
        Kind::Linear => 1,
        Kind::Eigen => 2,
    }
}

#[tactic(auto, unfolding(crate::specs::State::kind_of))]
pub fn kind_of(number: u64) -> Kind
    ensures { result ≡ kind_of number }
{
    match number {
        0 => Kind::Poly,
        1 => Kind::Linear,
        _ => Kind::Eigen,
    }
}

pub fn place_of(k: JobLine) -> u64
    requires { place_of k ≤ place_max }
    ensures { result ≡ place_of k }
{
    match k {
        JobLine::Number => 1,
        JobLine::Kind => 2,
        JobLine::Unknowns => 3,
        JobLine::Pin => 4,
        JobLine::Lo => 5,
        JobLine::Hi => 6,
        JobLine::Inv => 7,
        JobLine::Steps => 8,
        JobLine::System(i) => 9 + i as u64,
        JobLine::End => 0,
    }
}

#[tactic(auto, unfolding(crate::specs::State::line_in))]
pub fn line_in(place: u64) -> JobLine
    ensures { result ≡ line_in place }
{
    match place {
        0 => JobLine::End,
        1 => JobLine::Number,
        2 => JobLine::Kind,
        3 => JobLine::Unknowns,
        4 => JobLine::Pin,
        5 => JobLine::Lo,
        6 => JobLine::Hi,
        7 => JobLine::Inv,
        8 => JobLine::Steps,
        _ => JobLine::System((place - 9) as usize),
    }
}

pub fn nothing_read() -> Read
    ensures { result ≡ none_read }
{
    Read {
        fault: 0,
        line: 0,
        next: place_of(JobLine::Number),
        number: 0,
        kind: kind_number(Kind::Poly),
        n: 0,
        pin: 0,
        lo: [0; N],
        hi: [0; N],
        inv: [zero_row(); N],
        steps: 0,
        eqs: [zero_equation(); N],
        rows: [zero_row(); N],
        right: [0; N],
    }
}

pub fn head_of(r: Read) -> Head
    ensures { result ≡ head_of r }
{
    Head {
        number: r.number,
        kind: kind_of(r.kind),
        n: r.n,
        pin: r.pin,
    }
}

pub fn job_of(r: Read) -> Job
    ensures { result ≡ job_of r }
{
    let lo = r.lo;
    let hi = r.hi;
    let inv = r.inv;
    let eqs = r.eqs;
    let rows = r.rows;
    let right = r.right;
    Job {
        head: head_of(r),
        ends: Ends { lo, hi },
        inv,
        steps: r.steps,
        system: Body { eqs, rows, right },
    }
}

#[tactic(auto, unfolding(crate::specs::Limits::read_fits))]
pub fn read_within(r: Read) -> bool
    ensures { result ≡ read_fits r }
{
    r.fault <= FAULTS && r.line <= LINES && r.next <= PLACES && r.kind <= KINDS && r.n <= N
}
