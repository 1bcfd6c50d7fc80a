// A job text that arrives in parts, for C: what is carried from call to call goes by value.
ghost use Rattle.std.specs.Prelude.{◌≡◌};
ghost use Rattle.desk.specs.Desk.{written_status, written_text, solved_status, solved_text};
ghost use Rattle.job_parts.specs.Parts.{begun, part_taken, end_of};
ghost use Rattle.c_answers.specs.Numbers.{checked, Gives};
ghost use Rattle.floodrafter_c.specs.Parts.{numbers_taken};

use c_answers::{Answer, checked_numbers, numbers};
use job_parts::Parts;
use parts_end::{end_job, end_solve, end_status};

// `floodrafter_taken` of the header.
#[repr(C)]
#[derive(Clone, Copy)]
pub struct Taken {
    pub fault: u64,
    pub line: u64,
    pub parts: Parts,
}

#[unsafe(no_mangle)]
pub extern "C" fn floodrafter_begin() -> Parts
    ensures { result ≡ begun }
{
    job_parts::begin()
}

#[unsafe(no_mangle)]
pub extern "C" fn floodrafter_take(parts: Parts, part: &[u8]) -> Taken
    ensures { result ≡ numbers_taken (part_taken parts part.now) }
{
    let taken = job_parts::take(parts, part);
    let told = checked_numbers(taken.status);
    Taken {
        fault: told.fault,
        line: told.line,
        parts: taken.parts,
    }
}

#[unsafe(no_mangle)]
pub extern "C" fn floodrafter_end_check(parts: Parts) -> Answer
    ensures { result ≡ checked (written_status (end_of parts)) }
{
    checked_numbers(end_status(parts))
}

#[unsafe(no_mangle)]
pub extern "C" fn floodrafter_end_job(parts: Parts, out: &mut [u8]) -> Answer
    ensures { Gives (written_status (end_of parts)) (written_text (end_of parts)) out.old
        out.new result }
{
    numbers(end_job(parts, out))
}

#[unsafe(no_mangle)]
pub extern "C" fn floodrafter_end_solve(parts: Parts, out: &mut [u8]) -> Answer
    ensures { Gives (solved_status (end_of parts)) (solved_text (end_of parts)) out.old
        out.new result }
{
    numbers(end_solve(parts, out))
}
