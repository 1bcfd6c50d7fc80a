// A job text that came in parts, at its end. The state that is handed in may be any that is within its limits, so that
// the values of its job are checked as those handed over without text are.
#![tactic(auto)]

ghost use Rattle.std.specs.Prelude.{◌≡◌};
ghost use Rattle.faults.specs.Answer.{Leaves};
ghost use Rattle.job_parts.specs.Parts.{end_of};
ghost use Rattle.desk.specs.Desk.{written_status, written_text, run_status, run_text, solved_status, solved_text};

use checks::job::check_job;
use faults::Checked;
use job_parts::{Parts, end};
use job_write::write_job;
use jobs::Job;
use result_write::write_result;

// Its fault alone.
pub fn end_status(p: Parts) -> Checked<()>
    ensures { result ≡ written_status (end_of p) }
{
    check_job(end(p)?)
}

// Written again.
pub fn end_job(p: Parts, out: &mut [u8]) -> Checked<usize>
    ensures { Leaves (written_status (end_of p)) (written_text (end_of p)) out.old out.new result }
{
    write_job(end(p)?, out)
}

fn solve_values(j: Job, out: &mut [u8]) -> Checked<usize>
    ensures { Leaves (run_status j) (run_text j) out.old out.new result }
{
    write_result(run::run(j)?, out)
}

// Answered by the text of its result.
pub fn end_solve(p: Parts, out: &mut [u8]) -> Checked<usize>
    ensures { Leaves (solved_status (end_of p)) (solved_text (end_of p)) out.old out.new result }
{
    solve_values(end(p)?, out)
}
