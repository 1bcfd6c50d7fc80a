// The numbers of a text's line, taken where they stand: each byte is looked at once.
#![tactic(auto)]

pub mod lines;

ghost use Rattle.std.specs.Prelude.{◌≡◌, ◌≤◌, length};
ghost use Rattle.scan.specs.Fields.{is_at, digits_at, MagnitudeAt, NumberAt};

use digits::{DIGITS, is_digit};

// What stands there, and the place after it.
#[derive(Clone, Copy)]
pub struct At<T> {
    pub value: T,
    pub next: usize,
}

// A number with no sign.
fn magnitude_at(s: &[u8], from: usize) -> Option<At<u32>>
    requires { from ≤ length s.now }
    ensures { MagnitudeAt s.now from result }
{
    let first = *s.get(from)?;
    if !is_digit(first) {
        return None;
    }
    if first == b'0' {
        return Some(At {
            value: 0,
            next: from + 1,
        });
    }
    let stop = from + DIGITS.min(s.len() - from);
    let mut m = u32::from(first - b'0');
    for i in from + 1..stop {
        let b = s[i];
        if !is_digit(b) {
            return Some(At { value: m, next: i });
        }
        m = m * 10 + u32::from(b - b'0');
    }
    Some(At {
        value: m,
        next: stop,
    })
}

// Whether this byte stands there.
pub fn is_at(s: &[u8], at: usize, b: u8) -> bool
    ensures { result ≡ is_at s.now at b }
{
    at < s.len() && s[at] == b
}

// Where a number's digits begin: after the minus, if there is one.
fn digits_from(s: &[u8], from: usize) -> usize
    ensures { result ≡ digits_at s.now from }
{
    if is_at(s, from, b'-') { from + 1 } else { from }
}

// "Numbers: an optional minus, 1 to 9 digits, no leading zero, no minus zero."
pub fn number_at(s: &[u8], from: usize) -> Option<At<i64>>
    requires { from ≤ length s.now }
    ensures { NumberAt s.now from result }
{
    let a = digits_from(s, from);
    let digits = magnitude_at(s, a)?;
    let m = i64::from(digits.value);
    let next = digits.next;
    if a == from {
        return Some(At { value: m, next });
    }
    if m == 0 {
        return None;
    }
    Some(At { value: -m, next })
}
