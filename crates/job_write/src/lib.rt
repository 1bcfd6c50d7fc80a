// The writer of a job text.
#![tactic(auto)]

ghost use Rattle.std.specs.Prelude.{◌≡◌};
ghost use Rattle.checks.specs.Checks.{check_job};
ghost use Rattle.faults.specs.Answer.{Leaves};
ghost use Rattle.job_form.specs.JobBytes.{job_bytes};

use checks::job::check_job;
use faults::{Checked, Fault, refused};
use job_put::put_job;
use jobs::Job;

// The text of a job whose check found nothing, for any buffer. The same writer on a buffer of one byte measures it
// first, so that nothing is written where it does not fit.
pub fn write_ready(j: Job, out: &mut [u8]) -> Checked<usize>
    requires { check_job j ≡ Ok tt }
    ensures { Leaves (Ok tt) (job_bytes j) out.old out.new result }
{
    let mut scratch = [0u8; 1];
    let len = put_job(&mut scratch, j);
    if out.len() < len {
        return refused(Fault::ShortBuffer, 0);
    }
    Ok(put_job(out, j))
}

// A job's text, for any values and any buffer.
pub fn write_job(j: Job, out: &mut [u8]) -> Checked<usize>
    ensures { Leaves (check_job j) (job_bytes j) out.old out.new result }
{
    check_job(j)?;
    write_ready(j, out)
}
