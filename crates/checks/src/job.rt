// The checks of a job's values, in the order of its text's lines. Places past n are not looked at.
ghost use Rattle.std.specs.Prelude.{◌≡◌, ◌≤◌, ◌<◌};
ghost use Rattle.sizes.specs.Sizes.{n_max};
ghost use Rattle.faults.specs.Checks.{on_line};
ghost use Rattle.jobs.specs.declared.JobLine.{JobLine};
ghost use Rattle.jobs.specs.Lines.{job_number, LineFits};
ghost use Rattle.checks.specs.Checks.{good_matrix};
ghost use Rattle.checks.specs.Checks.{number_check, unknowns_check, pin_check, low_check, high_check, inverse_check};
ghost use Rattle.checks.specs.Checks.{steps_check, equation_check, row_check, sided_check, system_check};
ghost use Rattle.checks.specs.Checks.{job_line_status, system_lines, head_lines, body_lines, check_job};

use faults::{Checked, Fault, bad_unless, on_line};
use jobs::lines::job_line_number;
use jobs::{Equation, Head, Job, JobLine, Kind, Row};
use sizes::{END, ENTRY, N, NUMBER, STEPS};
use term_checks::ranges::{all_ordered, all_within, one_to, within};
use term_checks::terms::{good_coefs, good_terms};

pub fn good_matrix(rows: [Row; N], n: usize) -> bool
    requires { n ≤ n_max }
    ensures { result ≡ good_matrix rows n }
{
    for row in &rows[..n] {
        if !all_within(row.at, n, ENTRY) {
            return false;
        }
    }
    true
}

#[tactic(auto, unfolding(crate::specs::Checks::number_check))]
pub fn number_check(number: u64) -> Result<(), Fault>
    ensures { result ≡ number_check number }
{
    bad_unless(number <= NUMBER, Fault::Beyond)
}

#[tactic(auto, unfolding(crate::specs::Checks::unknowns_check))]
pub fn unknowns_check(n: usize) -> Result<(), Fault>
    ensures { result ≡ unknowns_check n }
{
    bad_unless(one_to(N, n), Fault::Unknowns)
}

#[tactic(auto, unfolding(crate::specs::Checks::pin_check))]
fn pin_check(kind: Kind, n: usize, pin: usize) -> Result<(), Fault>
    ensures { result ≡ pin_check kind n pin }
{
    match kind {
        Kind::Poly | Kind::Linear => Ok(()),
        Kind::Eigen => bad_unless(one_to(n, pin), Fault::Pin),
    }
}

#[tactic(auto, unfolding(crate::specs::Checks::low_check))]
pub fn low_check(n: usize, lo: [i64; N]) -> Result<(), Fault>
    requires { n ≤ n_max }
    ensures { result ≡ low_check n lo }
{
    bad_unless(all_within(lo, n, END), Fault::Beyond)
}

#[tactic(auto, unfolding(crate::specs::Checks::high_check, faults::specs::Checks::first_of))]
pub fn high_check(n: usize, lo: [i64; N], hi: [i64; N]) -> Result<(), Fault>
    requires { n ≤ n_max }
    ensures { result ≡ high_check n lo hi }
{
    bad_unless(all_within(hi, n, END), Fault::Beyond)?;
    bad_unless(all_ordered(lo, hi, n), Fault::Crossed)
}

#[tactic(auto, unfolding(crate::specs::Checks::inverse_check))]
pub fn inverse_check(n: usize, inv: [Row; N]) -> Result<(), Fault>
    requires { n ≤ n_max }
    ensures { result ≡ inverse_check n inv }
{
    bad_unless(good_matrix(inv, n), Fault::Beyond)
}

#[tactic(auto, unfolding(crate::specs::Checks::steps_check))]
pub fn steps_check(steps: u64) -> Result<(), Fault>
    ensures { result ≡ steps_check steps }
{
    bad_unless(steps <= STEPS, Fault::Steps)
}

#[tactic(auto, unfolding(crate::specs::Checks::equation_check, faults::specs::Checks::first_of))]
pub fn equation_check(n: usize, q: Equation) -> Result<(), Fault>
    requires { n ≤ n_max }
    ensures { result ≡ equation_check n q }
{
    bad_unless(good_coefs(q), Fault::Beyond)?;
    bad_unless(good_terms(q, n), Fault::Terms)
}

#[tactic(auto, unfolding(crate::specs::Checks::row_check))]
pub fn row_check(n: usize, row: [i64; N]) -> Result<(), Fault>
    requires { n ≤ n_max }
    ensures { result ≡ row_check n row }
{
    bad_unless(all_within(row, n, ENTRY), Fault::Beyond)
}

#[tactic(auto, unfolding(crate::specs::Checks::sided_check, faults::specs::Checks::first_of))]
pub fn sided_check(n: usize, row: [i64; N], right: i64) -> Result<(), Fault>
    requires { n ≤ n_max }
    ensures { result ≡ sided_check n row right }
{
    row_check(n, row)?;
    bad_unless(within(right, ENTRY), Fault::Beyond)
}

#[tactic(auto, unfolding(crate::specs::Checks::system_check))]
fn system_check(j: Job, i: usize) -> Result<(), Fault>
    requires { (j.head.n ≤ n_max) × (i < j.head.n) }
    ensures { result ≡ system_check j.head.kind j i }
{
    let n = j.head.n;
    match j.head.kind {
        Kind::Poly => equation_check(n, j.system.eqs[i]),
        Kind::Linear => sided_check(n, j.system.rows[i].at, j.system.right[i]),
        Kind::Eigen => row_check(n, j.system.rows[i].at),
    }
}

// What a line of this kind finds, with its number.
fn numbered(f: Result<(), Fault>, k: JobLine, head: Head) -> Checked<()>
    requires { LineFits k head }
    ensures { result ≡ on_line f (job_number k head) }
{
    on_line(f, job_line_number(k, head))
}

#[tactic(auto, unfolding(crate::specs::Checks::job_line_status, crate::specs::Checks::line_check))]
fn system_line(j: Job, i: usize) -> Checked<()>
    requires { (j.head.n ≤ n_max) × (i < j.head.n) }
    ensures { result ≡ job_line_status (JobLine.System i) j }
{
    numbered(system_check(j, i), JobLine::System(i), j.head)
}

fn system_lines(j: Job) -> Checked<()>
    requires { j.head.n ≤ n_max }
    ensures { result ≡ system_lines j }
{
    for i in 0..j.head.n {
        system_line(j, i)?;
    }
    Ok(())
}

#[tactic(auto, unfolding(crate::specs::Checks::head_lines, crate::specs::Checks::job_line_status, crate::specs::Checks::line_check, faults::specs::Checks::and_then, faults::specs::Checks::on_line))]
fn head_lines(j: Job) -> Checked<()>
    ensures { result ≡ head_lines j }
{
    let head = j.head;
    numbered(number_check(head.number), JobLine::Number, head)?;
    numbered(unknowns_check(head.n), JobLine::Unknowns, head)?;
    numbered(pin_check(head.kind, head.n, head.pin), JobLine::Pin, head)
}

#[tactic(auto, unfolding(crate::specs::Checks::body_lines, crate::specs::Checks::job_line_status, crate::specs::Checks::line_check, faults::specs::Checks::and_then, faults::specs::Checks::on_line))]
fn body_lines(j: Job) -> Checked<()>
    requires { j.head.n ≤ n_max }
    ensures { result ≡ body_lines j }
{
    let head = j.head;
    let n = head.n;
    numbered(low_check(n, j.ends.lo), JobLine::Lo, head)?;
    numbered(high_check(n, j.ends.lo, j.ends.hi), JobLine::Hi, head)?;
    numbered(inverse_check(n, j.inv), JobLine::Inv, head)?;
    numbered(steps_check(j.steps), JobLine::Steps, head)?;
    system_lines(j)
}

// The first fault of a job's values. Every value is taken.
#[tactic(auto, unfolding(crate::specs::Checks::check_job, faults::specs::Checks::and_then))]
pub fn check_job(j: Job) -> Checked<()>
    ensures { result ≡ check_job j }
{
    head_lines(j)?;
    body_lines(j)
}
