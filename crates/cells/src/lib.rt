// A number in four bytes, and a text with its length before it, anywhere in lent bytes.
#![tactic(auto)]

ghost use Rattle.std.specs.Prelude.{◌+◌, ◌≤◌, ◌<◌, ◌≡◌, length};
ghost use Rattle.writing.specs.Wrote.{place_max, Wrote};
ghost use Rattle.cells.specs.Cells.{number_at, number_bytes, cell, zeros};

use writing::{put_byte, put_bytes};

// The number in the four bytes from `at` on.
pub fn number_at(bytes: &[u8], at: usize) -> u64
    requires { at + 4 ≤ length bytes.now }
    ensures { result ≡ number_at bytes.now at }
{
    u64::from(u32::from_le_bytes([bytes[at], bytes[at + 1], bytes[at + 2], bytes[at + 3]]))
}

// A number into four bytes.
pub fn put_number(bytes: &mut [u8], at: usize, v: u64) -> usize
    requires { at + 4 ≤ place_max }
    ensures { Wrote bytes.old bytes.new at result (number_bytes v) }
{
    put_bytes(bytes, at, &v.to_le_bytes()[..4])
}

// A text and its length.
pub fn put_text(bytes: &mut [u8], at: usize, text: &[u8]) -> usize
    requires { at + 4 + length text.now ≤ place_max }
    ensures { Wrote bytes.old bytes.new at result (cell text.now) }
{
    let from = put_number(bytes, at, text.len() as u64);
    put_bytes(bytes, from, text)
}

// So many zeros.
pub fn wipe(bytes: &mut [u8], from: usize, count: usize) -> usize
    requires { from + count ≤ place_max }
    ensures { Wrote bytes.old bytes.new from result (zeros count) }
{
    let mut at = from;
    for _i in 0..count {
        at = put_byte(bytes, at, 0);
    }
    at
}
