// The reader of a job text, line after line from where each begins. The parts of the job are put together once.
#![tactic(auto)]

mod ends;
pub mod first;
mod system;

ghost use Rattle.std.specs.Prelude.{◌≡◌};
ghost use Rattle.faults.specs.Checked.{status_of};
ghost use Rattle.faults.specs.Checks.{on_line};
ghost use Rattle.jobs.specs.Lines.{LineFits, job_number};
ghost use Rattle.job_form.specs.JobForm.{read_job};

use ends::system_end;
use faults::{Checked, Fault, on_line, refused};
use first::{box_at, head_at};
use jobs::lines::job_line_number;
use jobs::{Head, Job, JobLine};
use sizes::TEXT;
use system::system_at;

// What a line of this kind says or finds.
fn told<T>(found: Result<T, Fault>, k: JobLine, head: Head) -> Checked<T>
    requires { LineFits k head }
    ensures { result ≡ on_line found (job_number k head) }
{
    on_line(found, job_line_number(k, head))
}

// The whole text.
pub fn read_job(text: &[u8]) -> Checked<Job>
    ensures { result ≡ read_job text.now }
{
    if TEXT < text.len() {
        return refused(Fault::LongText, 0);
    }
    let h = head_at(text)?;
    let head = h.value;
    let b = box_at(text, h.next, head)?;
    let s = system_at(text, b.next, head)?;
    if s.next < text.len() {
        return refused(Fault::Spelling, job_line_number(JobLine::End, head));
    }
    let ends = b.value.ends;
    let inv = b.value.inv;
    let system = s.value;
    Ok(Job {
        head,
        ends,
        inv,
        steps: b.value.steps,
        system,
    })
}

// The status of the whole text: no system is kept and no job put together.
pub fn read_status(text: &[u8]) -> Checked<()>
    ensures { result ≡ status_of (read_job text.now) }
{
    if TEXT < text.len() {
        return refused(Fault::LongText, 0);
    }
    let h = head_at(text)?;
    let head = h.value;
    let b = box_at(text, h.next, head)?;
    let next = system_end(text, b.next, head)?;
    if next < text.len() {
        return refused(Fault::Spelling, job_line_number(JobLine::End, head));
    }
    Ok(())
}
