// The numbers of the lines of both texts.
ghost use Rattle.std.specs.Prelude.{◌≡◌, ◌≤◌};
ghost use Rattle.sizes.specs.Sizes.{n_max};
ghost use Rattle.jobs.specs.Parts.{last_pin};
ghost use Rattle.jobs.specs.Lines.{pin_stands, pin_lines, after_n, steps_number, system_number, job_number};
ghost use Rattle.jobs.specs.Lines.{LineFits, result_number, JobNumbered, ResultNumbered};

use crate::{Head, JobLine, Kind, ResultLine};

// Whether a job has a pin line.
pub fn pin_written(head: Head) -> bool
    ensures { result ≡ pin_stands head.kind head.n head.pin }
{
    match head.kind {
        Kind::Poly | Kind::Linear => false,
        Kind::Eigen => head.pin != head.n,
    }
}

#[tactic(auto, unfolding(crate::specs::Lines::pin_lines))]
fn pin_lines(head: Head) -> u64
    ensures { result ≡ pin_lines head }
{
    if pin_written(head) { 1 } else { 0 }
}

// The pin where no line says it: n in an eigenpair's job.
pub fn last_pin(kind: Kind, n: usize) -> usize
    ensures { result ≡ last_pin kind n }
{
    match kind {
        Kind::Poly | Kind::Linear => 0,
        Kind::Eigen => n,
    }
}

// The line after n.
pub fn after_n(kind: Kind) -> JobLine
    ensures { result ≡ after_n kind }
{
    match kind {
        Kind::Poly | Kind::Linear => JobLine::Lo,
        Kind::Eigen => JobLine::Pin,
    }
}

#[tactic(auto, using(crate::proofs::LineLaws::few_pins))]
pub fn steps_number(head: Head) -> u64
    ensures { result ≡ steps_number head }
{
    7 + pin_lines(head)
}

// Line i of the system.
#[tactic(auto, using(crate::proofs::LineLaws::few_pins))]
pub fn system_number(head: Head, i: usize) -> u64
    requires { i ≤ n_max }
    ensures { result ≡ system_number head i }
{
    steps_number(head) + 1 + i as u64
}

#[tactic(auto, using(crate::proofs::LineLaws::few_pins))]
pub fn job_line_number(k: JobLine, head: Head) -> u64
    requires { LineFits k head }
    ensures { result ≡ job_number k head }
{
    match k {
        JobLine::Number => 1,
        JobLine::Kind => 2,
        JobLine::Unknowns => 3,
        JobLine::Pin => 4,
        JobLine::Lo => 4 + pin_lines(head),
        JobLine::Hi => 5 + pin_lines(head),
        JobLine::Inv => 6 + pin_lines(head),
        JobLine::Steps => steps_number(head),
        JobLine::System(i) => system_number(head, i),
        JobLine::End => system_number(head, head.n),
    }
}

pub fn result_line_number(k: ResultLine) -> u64
    ensures { result ≡ result_number k }
{
    match k {
        ResultLine::Number => 1,
        ResultLine::Visit => 2,
        ResultLine::Verdict => 3,
        ResultLine::Steps => 4,
        ResultLine::Lo => 5,
        ResultLine::Hi => 6,
        ResultLine::End => 7,
    }
}

// The line of a job text that has this number: the first stands for 0, and End for what is past the last.
#[tactic(auto, using(crate::proofs::LineLaws::few_pins))]
pub fn job_line_of(line: u64, head: Head) -> JobLine
    requires { head.n ≤ n_max }
    ensures { JobNumbered line head result }
{
    match line {
        0 | 1 => JobLine::Number,
        2 => JobLine::Kind,
        3 => JobLine::Unknowns,
        4 => after_n(head.kind),
        _ => match line - pin_lines(head) {
            4 => JobLine::Lo,
            5 => JobLine::Hi,
            6 => JobLine::Inv,
            7 => JobLine::Steps,
            m if m - 8 < head.n as u64 => JobLine::System((m - 8) as usize),
            _ => JobLine::End,
        },
    }
}

// The same of a result text.
pub fn result_line_of(line: u64) -> ResultLine
    ensures { ResultNumbered line result }
{
    match line {
        0 | 1 => ResultLine::Number,
        2 => ResultLine::Visit,
        3 => ResultLine::Verdict,
        4 => ResultLine::Steps,
        5 => ResultLine::Lo,
        6 => ResultLine::Hi,
        _ => ResultLine::End,
    }
}
