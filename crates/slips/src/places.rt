// Where a line begins, and what stands at a place.
ghost use Rattle.std.specs.Prelude.{◌+◌, ◌≤◌, length};

use crate::{LineSlip, Misspelling};

// "EF BB BF", which some editors put before a text.
pub(crate) fn order_mark(text: &[u8]) -> bool {
    text.starts_with(b"\xef\xbb\xbf")
}

// Where line number `line`, counted from 1, begins: at the text's end where there is none.
pub fn line_start(text: &[u8], line: u64) -> usize
    ensures { result ≤ length text.now }
{
    let mut left = line;
    for (at, b) in text.iter().enumerate() {
        if left <= 1 {
            return at;
        }
        if *b == b'\n' {
            left -= 1;
        }
    }
    text.len()
}

// The place after the bytes from there on that pass this test.
pub(crate) fn past_all<F: Fn(u8) -> bool>(text: &[u8], from: usize, test: F) -> usize
    requires at { from ≤ length text.now }
    requires call { F.IsAlwaysCallable test }
    ensures { (from ≤ result) × (result ≤ length text.now) }
{
    let rest = &text[from..];
    from + rest.iter().position(|b| !test(*b)).unwrap_or(rest.len())
}

// A byte stands at this place that no line has.
pub(crate) fn stray(text: &[u8], at: usize) -> Option<Misspelling> {
    match text.get(at).copied() {
        Some(b'\r') => Some(Misspelling::Line(LineSlip::Return)),
        Some(b' ' | b'\t') => Some(Misspelling::Line(LineSlip::Blank)),
        _ => None,
    }
}
