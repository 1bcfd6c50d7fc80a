// The reader of a result text, line after line from where each begins.
#![tactic(auto)]

ghost use Rattle.std.specs.Prelude.{◌≡◌};
ghost use Rattle.faults.specs.Checks.{on_line};
ghost use Rattle.jobs.specs.Lines.{result_number};
ghost use Rattle.result_form.specs.ResultForm.{read_result};

use faults::{Checked, Fault, on_line, refused};
use jobs::lines::result_line_number;
use jobs::{Result, ResultLine};
use line_read::counts::{number_line, steps_line, visit_line};
use line_read::words::verdict_line;
use list_read::numbers::{any_low_line, high_line};
use sizes::TEXT;

// What a line of this kind says or finds.
fn told<T>(found: std::result::Result<T, Fault>, k: ResultLine) -> Checked<T>
    ensures { result ≡ on_line found (result_number k) }
{
    on_line(found, result_line_number(k))
}

// The whole text: "job", `visit=` "as second line", "verdict, steps, lo, hi".
pub fn read_result(text: &[u8]) -> Checked<Result>
    ensures { result ≡ read_result text.now }
{
    if TEXT < text.len() {
        return refused(Fault::LongText, 0);
    }
    let number = told(number_line(text, 0), ResultLine::Number)?;
    let visit = told(visit_line(text, number.next), ResultLine::Visit)?;
    let verdict = told(verdict_line(text, visit.next), ResultLine::Verdict)?;
    let steps = told(steps_line(text, verdict.next), ResultLine::Steps)?;
    let low = told(any_low_line(text, steps.next), ResultLine::Lo)?;
    let n = low.value.count;
    let lo = low.value.row;
    let high = told(high_line(text, low.next, n, lo), ResultLine::Hi)?;
    if high.next < text.len() {
        return refused(Fault::Spelling, result_line_number(ResultLine::End));
    }
    let hi = high.value;
    Ok(Result {
        number: number.value,
        visit: visit.value,
        verdict: verdict.value,
        steps: steps.value,
        n,
        lo,
        hi,
    })
}
