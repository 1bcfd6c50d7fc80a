// For C: a text is a pointer and a length, an answer three numbers. `include/floodrafter.h` is the other side.
#![tactic(auto)]

pub mod listed;
pub mod parts;
pub mod screens;
pub mod steps;

ghost use Rattle.std.specs.Prelude.{◌≡◌};
ghost use Rattle.faults.specs.Checked.{status_of};
ghost use Rattle.job_form.specs.JobForm.{read_job};
ghost use Rattle.result_form.specs.ResultForm.{read_result};
ghost use Rattle.desk.specs.Desk.{job_status, job_text, result_status, result_text, solve_status, solve_text};
ghost use Rattle.c_answers.specs.Numbers.{checked, Gives};
ghost use Rattle.slips.specs.Slips.{found_in};
ghost use Rattle.sentences.specs.Sentences.{Explains};

use c_answers::{Answer, checked_numbers, numbers};

#[unsafe(no_mangle)]
pub extern "C" fn floodrafter_solve(text: &[u8], out: &mut [u8]) -> Answer
    ensures { Gives (solve_status text.now) (solve_text text.now)
        out.old out.new result }
{
    numbers(desk::solve(text, out))
}

#[unsafe(no_mangle)]
pub extern "C" fn floodrafter_rewrite_job(text: &[u8], out: &mut [u8]) -> Answer
    ensures { Gives (job_status text.now) (job_text text.now)
        out.old out.new result }
{
    numbers(desk::rewrite_job(text, out))
}

#[unsafe(no_mangle)]
pub extern "C" fn floodrafter_rewrite_result(text: &[u8], out: &mut [u8]) -> Answer
    ensures { Gives (result_status text.now) (result_text text.now)
        out.old out.new result }
{
    numbers(desk::rewrite_result(text, out))
}

#[unsafe(no_mangle)]
pub extern "C" fn floodrafter_check_job(text: &[u8]) -> Answer
    ensures { result ≡ checked (status_of (read_job text.now)) }
{
    checked_numbers(job_read::read_status(text))
}

#[unsafe(no_mangle)]
pub extern "C" fn floodrafter_check_result(text: &[u8]) -> Answer
    ensures { result ≡ checked (status_of (read_result text.now)) }
{
    checked_numbers(result_read::read_result(text).map(|_| ()))
}

#[unsafe(no_mangle)]
pub extern "C" fn floodrafter_explain_job(text: &[u8], out: &mut [u8]) -> usize
    ensures { Explains (found_in (status_of (read_job text.now))) out.old out.new result }
{
    sentences::explain_job(text, out)
}

#[unsafe(no_mangle)]
pub extern "C" fn floodrafter_explain_result(text: &[u8], out: &mut [u8]) -> usize
    ensures { Explains (found_in (status_of (read_result text.now)))
        out.old out.new result }
{
    sentences::explain_result(text, out)
}
