// A line of numbers that is wrongly spelled: where the reader of its numbers stops.
ghost use Rattle.std.specs.Prelude.{◌≤◌, length};

use crate::places::stray;
use crate::{Field, LineSlip, Misspelling, Wrong};
use scan::{is_at, number_at};

// What ends a field or a line does not stand at this place: the text ends there, a byte stands there that no line has,
// or it is this other slip.
pub fn no_end(text: &[u8], at: usize, other: Misspelling) -> Misspelling {
    if text.len() <= at {
        return Misspelling::Line(LineSlip::NoFeed);
    }
    stray(text, at).unwrap_or(other)
}

// What is wrong with a number before this place, where its minus stands.
fn after_minus(text: &[u8], at: usize) -> Wrong {
    match text.get(at).copied() {
        Some(b'0'..=b'9') => Wrong::MinusZero,
        _ => Wrong::BareMinus,
    }
}

// No number is spelled at this place.
pub fn in_place_of(text: &[u8], at: usize, field: Field) -> Misspelling
    requires { at ≤ length text.now }
{
    let (at, wrong) = match text.get(at).copied() {
        None | Some(b'\n' | b',') => (at, Wrong::Missing),
        Some(b'.') => (at, Wrong::Point),
        Some(b'+') => (at, Wrong::Plus),
        Some(b'-') => (at + 1, after_minus(text, at + 1)),
        _ => (at, Wrong::Other),
    };
    stray(text, at).unwrap_or(Misspelling::Number(field, wrong))
}

// A number ends at this place, and so must not go on there: of those with a digit behind them only 0 is short of nine.
pub fn after(text: &[u8], at: usize, field: Field, v: i64) -> Misspelling {
    match text.get(at).copied() {
        Some(b'.') => Misspelling::Number(field, Wrong::Point),
        Some(b'0'..=b'9') if v == 0 => Misspelling::Number(field, Wrong::LeadingZero),
        Some(b'0'..=b'9') => Misspelling::Number(field, Wrong::LongDigits),
        _ => no_end(text, at, Misspelling::Number(field, Wrong::Other)),
    }
}

// The line's one number.
pub fn only_number(text: &[u8], from: usize) -> Misspelling
    requires { from ≤ length text.now }
{
    let Some(number) = number_at(text, from) else {
        return in_place_of(text, from, Field::Only);
    };
    if is_at(text, number.next, b',') {
        return Misspelling::Number(Field::Only, Wrong::Comma);
    }
    after(text, number.next, Field::Only, number.value)
}

// Numbers joined by commas, so many of them.
pub fn numbers(text: &[u8], from: usize, expected: usize) -> Misspelling
    requires { from ≤ length text.now }
{
    let mut at = from;
    let mut count = 0;
    loop {
        let Some(number) = number_at(text, at) else {
            return in_place_of(text, at, Field::Number(count + 1));
        };
        count += 1;
        match text.get(number.next).copied() {
            Some(b'\n') => return Misspelling::Count(expected, count),
            Some(b',') => at = number.next + 1,
            _ => return after(text, number.next, Field::Number(count), number.value),
        }
    }
}
