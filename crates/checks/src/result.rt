// The checks of a result's values, in the order of its text's lines. "Values handed over without text get the same
// checks in the same line order."
ghost use Rattle.std.specs.Prelude.{◌≡◌};
ghost use Rattle.faults.specs.Checks.{on_line};
ghost use Rattle.jobs.specs.Lines.{result_number};
ghost use Rattle.checks.specs.CheckResult.{visit_check, count_check, counted_check, check_result};

use crate::job::{high_check, low_check, number_check, steps_check};
use faults::{Checked, Fault, bad_unless, on_line};
use jobs::ResultLine;
use jobs::lines::result_line_number;
use sizes::{N, VISIT};

#[tactic(auto, unfolding(crate::specs::CheckResult::visit_check))]
fn visit_check(visit: u64) -> Result<(), Fault>
    ensures { result ≡ visit_check visit }
{
    bad_unless(visit <= VISIT, Fault::Beyond)
}

#[tactic(auto, unfolding(crate::specs::CheckResult::count_check, faults::specs::Checks::first_of))]
pub fn count_check(n: usize) -> Result<(), Fault>
    ensures { result ≡ count_check n }
{
    bad_unless(1 <= n, Fault::Spelling)?;
    bad_unless(n <= N, Fault::Unknowns)
}

#[tactic(auto, unfolding(crate::specs::CheckResult::counted_check, faults::specs::Checks::first_of))]
pub fn counted_check(n: usize, lo: [i64; N]) -> Result<(), Fault>
    ensures { result ≡ counted_check n lo }
{
    count_check(n)?;
    low_check(n, lo)
}

// What a line of this kind finds, with its number.
fn numbered(f: Result<(), Fault>, k: ResultLine) -> Checked<()>
    ensures { result ≡ on_line f (result_number k) }
{
    on_line(f, result_line_number(k))
}

// The first fault of a result's values. Every value is taken.
#[tactic(auto, unfolding(crate::specs::CheckResult::check_result, crate::specs::CheckResult::result_line_status, crate::specs::CheckResult::result_check, faults::specs::Checks::and_then, faults::specs::Checks::on_line))]
pub fn check_result(r: jobs::Result) -> Checked<()>
    ensures { result ≡ check_result r }
{
    numbered(number_check(r.number), ResultLine::Number)?;
    numbered(visit_check(r.visit), ResultLine::Visit)?;
    numbered(steps_check(r.steps), ResultLine::Steps)?;
    numbered(counted_check(r.n, r.lo), ResultLine::Lo)?;
    numbered(high_check(r.n, r.lo, r.hi), ResultLine::Hi)
}
