// An answer in units beside the marks, for people. It is exact: a mark has a finite decimal.
#![tactic(auto)]

ghost use Rattle.std.specs.Prelude.{◌≡◌, Ok};
ghost use Rattle.checks.specs.CheckResult.{check_result};
ghost use Rattle.faults.specs.Answer.{Leaves};
ghost use Rattle.desk.specs.Desk.{run_status, solve_status};
ghost use Rattle.units.specs.Show.{units_of, units_run, units_text, TextFits};

pub mod sides;

use checks::result::check_result;
use faults::{Checked, Fault, refused};
use job_read::read_job;
use jobs::{Job, Result};
use result_write::write_ready;
use run::run;
use sides::put_unknowns;
use sizes::TEXT;
use writing::put_bytes;

// The result's text, and behind it the lines, which are measured on a buffer of one byte.
fn put_both(r: Result, text: &[u8], out: &mut [u8]) -> Checked<usize>
    requires { TextFits r text.now }
    ensures { Leaves (Ok tt) (units_of r) out.old out.new result }
{
    let mut scratch = [0u8; 1];
    let room = put_unknowns(&mut scratch, text.len(), r.lo, r.hi, r.n);
    if out.len() < room {
        return refused(Fault::ShortBuffer, 0);
    }
    let at = put_bytes(out, 0, text);
    let len = put_unknowns(out, at, r.lo, r.hi, r.n);
    Ok(len)
}

fn write_checked(r: Result, out: &mut [u8]) -> Checked<usize>
    requires { check_result r ≡ Ok tt }
    ensures { Leaves (Ok tt) (units_of r) out.old out.new result }
{
    let mut text = [0u8; TEXT];
    let len = write_ready(r, &mut text)?;
    put_both(r, &text[..len], out)
}

fn write_units(r: Result, out: &mut [u8]) -> Checked<usize>
    ensures { Leaves (check_result r) (units_of r) out.old out.new result }
{
    check_result(r)?;
    write_checked(r, out)
}

fn write_run(j: Job, out: &mut [u8]) -> Checked<usize>
    ensures { Leaves (run_status j) (units_run j) out.old out.new result }
{
    write_units(run(j)?, out)
}

// A job text, answered by the text of its result and a line for each unknown.
pub fn show(text: &[u8], out: &mut [u8]) -> Checked<usize>
    ensures { Leaves (solve_status text.now) (units_text text.now) out.old
        out.new result }
{
    write_run(read_job(text)?, out)
}
