// The lines that hold a word.
ghost use Rattle.std.specs.Prelude.{◌≡◌, true, ◌≤◌, length};
ghost use Rattle.scan.specs.Lines.{no_feed};
ghost use Rattle.lines.specs.Lines.{kind_of, verdict_of};
ghost use Rattle.line_read.specs.At.{said, onward, line_from, word_from};

use faults::Fault;
use jobs::{Kind, Verdict};
use scan::At;
use scan::lines::line_is;

// What the line stands for, if it is these bytes.
fn word<T: Copy>(text: &[u8], from: usize, line: &[u8], value: T) -> Option<At<T>>
    requires { (from ≤ length text.now) × (no_feed line.now ≡ true) }
    ensures { result ≡ word_from line.now value text.now from }
{
    if line_is(text, from, line) {
        let next = from + line.len() + 1;
        Some(At { value, next })
    } else {
        None
    }
}

pub fn kind_line(text: &[u8], from: usize) -> Result<At<Kind>, Fault>
    requires { from ≤ length text.now }
    ensures { result ≡ line_from (said kind_of text.now from) (onward text.now from) }
{
    word(text, from, b"kind=poly", Kind::Poly)
        .or_else(|| word(text, from, b"kind=linear", Kind::Linear))
        .or_else(|| word(text, from, b"kind=eigen", Kind::Eigen))
        .ok_or(Fault::Spelling)
}

pub fn verdict_line(text: &[u8], from: usize) -> Result<At<Verdict>, Fault>
    requires { from ≤ length text.now }
    ensures { result ≡ line_from (said verdict_of text.now from) (onward text.now from) }
{
    word(text, from, b"verdict=none", Verdict::None)
        .or_else(|| word(text, from, b"verdict=unique", Verdict::Unique))
        .or_else(|| word(text, from, b"verdict=stalled", Verdict::Stalled))
        .or_else(|| word(text, from, b"verdict=spent", Verdict::Spent))
        .ok_or(Fault::Spelling)
}
