// A job text that arrives in parts.
ghost use Rattle.std.specs.Prelude.{◌≡◌};
ghost use Rattle.desk.specs.Desk.{written_status, written_text, solved_status, solved_text};
ghost use Rattle.job_parts.specs.Parts.{begun, part_taken, end_of};
ghost use Rattle.c_answers.specs.Numbers.{checked, Gives};
ghost use Rattle.floodrafter_c.specs.Parts.{numbers_taken};

use c_answers::Answer;
use floodrafter_c::parts::Taken;
use job_parts::Parts;

#[unsafe(no_mangle)]
pub extern "C" fn floodrafter_begin() -> Parts
    ensures { result ≡ begun }
{
    floodrafter_c::parts::floodrafter_begin()
}

#[unsafe(no_mangle)]
pub extern "C" fn floodrafter_take(parts: Parts, part: &[u8]) -> Taken
    ensures { result ≡ numbers_taken (part_taken parts part.now) }
{
    floodrafter_c::parts::floodrafter_take(parts, part)
}

#[unsafe(no_mangle)]
pub extern "C" fn floodrafter_end_check(parts: Parts) -> Answer
    ensures { result ≡ checked (written_status (end_of parts)) }
{
    floodrafter_c::parts::floodrafter_end_check(parts)
}

#[unsafe(no_mangle)]
pub extern "C" fn floodrafter_end_job(parts: Parts, out: &mut [u8]) -> Answer
    ensures { Gives (written_status (end_of parts)) (written_text (end_of parts)) out.old
        out.new result }
{
    floodrafter_c::parts::floodrafter_end_job(parts, out)
}

#[unsafe(no_mangle)]
pub extern "C" fn floodrafter_end_solve(parts: Parts, out: &mut [u8]) -> Answer
    ensures { Gives (solved_status (end_of parts)) (solved_text (end_of parts)) out.old
        out.new result }
{
    floodrafter_c::parts::floodrafter_end_solve(parts, out)
}
