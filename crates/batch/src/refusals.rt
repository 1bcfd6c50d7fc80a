// What ends a run: requests that are not framed as they should be, and the end of the input.
ghost use Rattle.std.specs.Prelude.{◌≡◌};

use crate::output::Output;
use std::io::Write;
use streams::outcomes::Outcome;

fn told<W: Write>(output: &mut Output<W>, words: &[u8]) -> Outcome
    ensures { output.new.block.used ≡ output.old.block.used }
{
    match output.say(words) {
        Ok(()) => Outcome::NotRun,
        Err(e) => Outcome::Unwritten(e),
    }
}

pub fn bad_line<W: Write>(output: &mut Output<W>) -> Outcome
    ensures { output.new.block.used ≡ output.old.block.used }
{
    told(
        output,
        b"error=expected a line of solve, job, result, parts L1,L2,.., image, image LO HI, \
        decide N LO HI KLO KHI, halve DEPTH ROOM, clear, open, step SLOT VISIT, reading SLOT VISIT ROOM \
        or close SLOT VISIT, and a length in digits (decide, clear, step, reading, close: 0), \
        one space between words\n",
    )
}

pub fn bad_text<W: Write>(output: &mut Output<W>) -> Outcome
    ensures { output.new.block.used ≡ output.old.block.used }
{
    told(
        output,
        b"error=expected as many bytes of text as the length says\n",
    )
}

// The input has ended, and these bytes are at hand.
pub fn at_end<W: Write>(output: &mut Output<W>, have: &[u8]) -> Outcome
    ensures { output.new.block.used ≡ output.old.block.used }
{
    if have.is_empty() {
        return Outcome::Answered;
    }
    if have.contains(&b'\n') {
        return bad_text(output);
    }
    bad_line(output)
}
