// A text handed over in parts of given lengths.
ghost use Rattle.std.specs.Prelude.{◌≡◌};
ghost use Rattle.job_parts.specs.Parts.{begun, bytes_taken};

use arguments::counts::value_of;
use job_parts::{Parts, begin, take};

// A part past the end is empty, the rest is the last part.
pub fn hand_over(lengths: &[u8], text: &[u8]) -> Parts
    ensures { result ≡ bytes_taken begun text.now }
{
    let mut p = begin();
    let mut rest = text;
    for length in lengths.split(|b| *b == b',') {
        let (part, behind) = rest.split_at(value_of(length).min(rest.len() as u64) as usize);
        p = take(p, part).parts;
        rest = behind;
    }
    take(p, rest).parts
}
