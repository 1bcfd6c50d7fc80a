// What each line of both texts must be.
ghost use Rattle.std.specs.Prelude.{◌≤◌, length};
ghost use Rattle.sizes.specs.Sizes.{n_max};

use crate::keys::past_key;
use crate::{Form, Key};
use jobs::{Head, JobLine, Kind, ResultLine};

// The key of a line, if it has one.
pub fn key_of(form: Form) -> Option<Key> {
    match form {
        Form::Number => Some(Key::Job),
        Form::Kind => Some(Key::Kind),
        Form::Unknowns => Some(Key::Unknowns),
        Form::Pin(_) => Some(Key::Pin),
        Form::PinOrLo(_, _) | Form::Unpinned(_) | Form::Low => Some(Key::Lo),
        Form::Numbers(key, _) => Some(key),
        Form::Sided(_) => Some(Key::Row),
        Form::Terms(_) => Some(Key::Eq),
        Form::Steps => Some(Key::Steps),
        Form::Visit => Some(Key::Visit),
        Form::Verdict => Some(Key::Verdict),
        Form::Nothing => None,
    }
}

// The line after an eigen job's n, by the key that stands there; with one unknown no pin is ever written.
fn after_n(text: &[u8], at: usize, n: usize) -> Form
    requires { at ≤ length text.now }
{
    if n <= 1 || past_key(text, at, Key::Lo).is_some() {
        Form::Numbers(Key::Lo, n)
    } else if past_key(text, at, Key::Pin).is_some() {
        Form::Pin(n - 1)
    } else {
        Form::PinOrLo(n - 1, n)
    }
}

// Other jobs than an eigenpair's have no pin line, which a typist may not know.
fn low_form(kind: Kind, n: usize) -> Form {
    match kind {
        Kind::Eigen => Form::Numbers(Key::Lo, n),
        Kind::Poly | Kind::Linear => Form::Unpinned(n),
    }
}

fn system_form(kind: Kind, n: usize) -> Form
    requires { n ≤ n_max }
{
    match kind {
        Kind::Poly => Form::Terms(n),
        Kind::Linear => Form::Sided(n + 1),
        Kind::Eigen => Form::Numbers(Key::Row, n),
    }
}

// The line that begins at this place.
pub fn job_form(text: &[u8], at: usize, line: JobLine, head: Head) -> Form
    requires { (at ≤ length text.now) × (head.n ≤ n_max) }
{
    let n = head.n;
    match line {
        JobLine::Number => Form::Number,
        JobLine::Kind => Form::Kind,
        JobLine::Unknowns => Form::Unknowns,
        JobLine::Pin => after_n(text, at, n),
        JobLine::Lo => low_form(head.kind, n),
        JobLine::Hi => Form::Numbers(Key::Hi, n),
        JobLine::Inv => Form::Numbers(Key::Inv, n * n),
        JobLine::Steps => Form::Steps,
        JobLine::System(_) => system_form(head.kind, n),
        JobLine::End => Form::Nothing,
    }
}

// A result's n is the length of its lo list.
pub fn result_form(line: ResultLine, n: usize) -> Form {
    match line {
        ResultLine::Number => Form::Number,
        ResultLine::Visit => Form::Visit,
        ResultLine::Verdict => Form::Verdict,
        ResultLine::Steps => Form::Steps,
        ResultLine::Lo => Form::Low,
        ResultLine::Hi => Form::Numbers(Key::Hi, n),
        ResultLine::End => Form::Nothing,
    }
}
