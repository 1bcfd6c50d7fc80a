// A line that is wrongly spelled.
ghost use Rattle.std.specs.Prelude.{◌≤◌, length};
ghost use Rattle.sizes.specs.Sizes.{n_max};

use crate::forms::key_of;
use crate::keys::{key_there, past_key};
use crate::numbers::{no_end, numbers, only_number};
use crate::places::{order_mark, past_all, stray};
use crate::terms::terms;
use crate::{Form, Key, LineSlip, Misspelling, Unlike};

// A word that is none of the line's.
fn word(text: &[u8], from: usize) -> Misspelling
    requires { from ≤ length text.now }
{
    let at = past_all(text, from, |b| b.is_ascii_lowercase());
    match text.get(at).copied() {
        Some(b'A'..=b'Z') => Misspelling::Unlike(Unlike::Capital),
        _ => no_end(text, at, Misspelling::Unlike(Unlike::Word)),
    }
}

// A digit that is none or goes on.
fn digit(text: &[u8], from: usize) -> Misspelling
    requires { from ≤ length text.now }
{
    let slip = Misspelling::Unlike(Unlike::Digit);
    match text.get(from).copied() {
        Some(b'0'..=b'9') => no_end(text, from + 1, slip),
        _ => stray(text, from).unwrap_or(slip),
    }
}

// In place of the low ends of a job that has no pin line a pin has words of its own.
fn wrong_key(form: Form, own: Key, key: Key) -> Misspelling {
    match (form, key) {
        (Form::PinOrLo(_, _), _) => Misspelling::NeitherKey(key),
        (Form::Unpinned(_), Key::Pin) => Misspelling::Line(LineSlip::Pin),
        _ => Misspelling::OtherKey(own, key),
    }
}

// Another key than the line's own, or none.
fn other_key(text: &[u8], at: usize, form: Form, own: Key) -> Misspelling
    requires { at ≤ length text.now }
{
    match key_there(text, at) {
        None => Misspelling::Unlike(Unlike::NoKey),
        Some(key) => wrong_key(form, own, key),
    }
}

// The line's own key does not stand there.
fn unkeyed(text: &[u8], at: usize, form: Form, own: Key) -> Misspelling
    requires { at ≤ length text.now }
{
    if at == 0 && order_mark(text) {
        return Misspelling::OrderMark;
    }
    match text.get(at).copied() {
        Some(b'\n') => Misspelling::Unlike(Unlike::Hollow),
        Some(b'A'..=b'Z') => Misspelling::Unlike(Unlike::Capital),
        _ => stray(text, at).unwrap_or_else(|| other_key(text, at, form, own)),
    }
}

// What stands after the line's key.
fn keyed(text: &[u8], from: usize, form: Form, n: usize) -> Misspelling
    requires { (from ≤ length text.now) × (n ≤ n_max) }
{
    match form {
        Form::Number | Form::Pin(_) | Form::Steps | Form::Visit => only_number(text, from),
        Form::Kind | Form::Verdict => word(text, from),
        Form::Unknowns => digit(text, from),
        Form::PinOrLo(_, m) | Form::Unpinned(m) | Form::Numbers(_, m) | Form::Sided(m) => {
            numbers(text, from, m)
        }
        Form::Low => numbers(text, from, 1),
        Form::Terms(_) => terms(text, from, n),
        Form::Nothing => Misspelling::Line(LineSlip::Extra),
    }
}

// No line is left to read where one must stand.
fn gone(text: &[u8]) -> Misspelling {
    if text.is_empty() {
        Misspelling::Empty
    } else {
        Misspelling::Unlike(Unlike::Gone)
    }
}

// The line that begins at this place, which must be of this form.
pub fn line_slip(text: &[u8], at: usize, form: Form, n: usize) -> Misspelling
    requires { (at ≤ length text.now) × (n ≤ n_max) }
{
    if text.len() <= at {
        return gone(text);
    }
    let Some(key) = key_of(form) else {
        return Misspelling::Line(LineSlip::Extra);
    };
    match past_key(text, at, key) {
        None => unkeyed(text, at, form, key),
        Some(from) => keyed(text, from, form, n),
    }
}
