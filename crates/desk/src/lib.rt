// From text to text: a job's answer, and both texts written again. A fault of the text is returned and writes nowhere.
#![tactic(auto)]

ghost use Rattle.std.specs.Prelude.{◌≡◌, Ok};
ghost use Rattle.faults.specs.Answer.{Leaves};
ghost use Rattle.checks.specs.Checks.{check_job};
ghost use Rattle.desk.specs.Desk.{job_status, job_text, result_status, result_text};
ghost use Rattle.desk.specs.Desk.{run_status, run_text, solve_status, solve_text};

use faults::Checked;
use job_read::read_job;
use jobs::Job;
use result_read::read_result;

// A result text, read and written again.
pub fn rewrite_result(text: &[u8], out: &mut [u8]) -> Checked<usize>
    ensures { Leaves (result_status text.now) (result_text text.now) out.old
        out.new result }
{
    result_write::write_ready(read_result(text)?, out)
}

// A job text, read and written again.
pub fn rewrite_job(text: &[u8], out: &mut [u8]) -> Checked<usize>
    ensures { Leaves (job_status text.now) (job_text text.now) out.old
        out.new result }
{
    job_write::write_ready(read_job(text)?, out)
}

// What a reader took needs no second check, and neither does what a run made of it.
fn write_run(j: Job, out: &mut [u8]) -> Checked<usize>
    requires { check_job j ≡ Ok tt }
    ensures { Leaves (run_status j) (run_text j) out.old out.new result }
{
    result_write::write_ready(run::accepted(j), out)
}

// A job text, answered by the text of its result.
pub fn solve(text: &[u8], out: &mut [u8]) -> Checked<usize>
    ensures { Leaves (solve_status text.now) (solve_text text.now) out.old
        out.new result }
{
    write_run(read_job(text)?, out)
}
