// The lines that hold one number.
ghost use Rattle.std.specs.Prelude.{◌≡◌, true, ◌≤◌, length};
ghost use Rattle.faults.specs.declared.Fault.{Fault};
ghost use Rattle.text.specs.Keys.{starts_with};
ghost use Rattle.text.specs.Words.{pin_key};
ghost use Rattle.scan.specs.Lines.{no_feed, line_of};
ghost use Rattle.reading.specs.NumberLines.{count_line};
ghost use Rattle.lines.specs.Lines.{number_of, visit_of, steps_of, unknowns_of, written_pin, pin_of};
ghost use Rattle.line_read.specs.At.{said, onward, line_from};

use checks::job::unknowns_check;
use faults::{Fault, bad_unless};
use scan::At;
use scan::lines::{count_at, key_at};
use sizes::{NUMBER, STEPS, VISIT};
use term_checks::ranges::one_to;
use term_read::digit_at;
use text::Uncounted;

// A count from 0 to its limit, after the key.
fn count_line(text: &[u8], from: usize, key: &[u8], most: u64, out: Fault) -> Result<At<u64>, Fault>
    requires { (from ≤ length text.now) × (no_feed key.now ≡ true) }
    ensures { result ≡ line_from (said (count_line Fault.Spelling out key.now most) text.now from)
        (onward text.now from) }
{
    let count = count_at(text, from, key, most).ok_or(Fault::Spelling)?;
    match count.value {
        Ok(value) => Ok(At {
            value,
            next: count.next,
        }),
        Err(Uncounted::Bad) => Err(Fault::Spelling),
        Err(Uncounted::Out) => Err(out),
    }
}

#[tactic(auto, unfolding(lines::specs::Lines::number_of))]
pub fn number_line(text: &[u8], from: usize) -> Result<At<u64>, Fault>
    requires { from ≤ length text.now }
    ensures { result ≡ line_from (said number_of text.now from) (onward text.now from) }
{
    count_line(text, from, b"job=", NUMBER, Fault::Beyond)
}

#[tactic(auto, unfolding(lines::specs::Lines::visit_of))]
pub fn visit_line(text: &[u8], from: usize) -> Result<At<u64>, Fault>
    requires { from ≤ length text.now }
    ensures { result ≡ line_from (said visit_of text.now from) (onward text.now from) }
{
    count_line(text, from, b"visit=", VISIT, Fault::Beyond)
}

#[tactic(auto, unfolding(lines::specs::Lines::steps_of))]
pub fn steps_line(text: &[u8], from: usize) -> Result<At<u64>, Fault>
    requires { from ≤ length text.now }
    ensures { result ≡ line_from (said steps_of text.now from) (onward text.now from) }
{
    count_line(text, from, b"steps=", STEPS, Fault::Steps)
}

pub fn unknowns_line(text: &[u8], from: usize) -> Result<At<usize>, Fault>
    requires { from ≤ length text.now }
    ensures { result ≡ line_from (said unknowns_of text.now from) (onward text.now from) }
{
    let digit = digit_at(text, from, b"n=").ok_or(Fault::Spelling)?;
    unknowns_check(digit.value)?;
    Ok(digit)
}

// Whether the line that begins here has the pin's key.
pub fn pin_stands(text: &[u8], from: usize) -> bool
    requires { from ≤ length text.now }
    ensures { result ≡ starts_with pin_key (line_of text.now from) }
{
    key_at(text, from, b"pin=")
}

// "9 for a written pin of n, or any pin not 1 to n"
fn written_pin(n: usize, pin: usize) -> Result<(), Fault>
    ensures { result ≡ written_pin n pin }
{
    bad_unless(one_to(n, pin) && pin != n, Fault::Pin)
}

pub fn pin_line(text: &[u8], from: usize, n: usize) -> Result<At<usize>, Fault>
    requires { from ≤ length text.now }
    ensures { result ≡ line_from (said (pin_of n) text.now from) (onward text.now from) }
{
    let count = count_line(text, from, b"pin=", n as u64, Fault::Pin)?;
    let pin = count.value as usize;
    written_pin(n, pin)?;
    Ok(At {
        value: pin,
        next: count.next,
    })
}
