// Numbers that are not as they must be, though well spelled.
ghost use Rattle.std.specs.Prelude.{◌≤◌, length};
ghost use Rattle.sizes.specs.Sizes.{n_max};

use crate::terms::term_slip;
use crate::{Crossing, Far, Form, Key, PinSlip, TermSlip};
use scan::lines::numbers_at;
use scan::number_at;
use sizes::{END, ENTRY};
use term_checks::ranges::within;
use term_read::terms_from;
use text::PLACES;

// The line's one number; 0 where none is spelled.
pub fn value(text: &[u8], from: usize) -> i64
    requires { from ≤ length text.now }
{
    number_at(text, from).map_or(0, |number| number.value)
}

// How a pin that is well spelled is wrong. The only one of one unknown is the last.
pub fn pin_slip(v: i64, n: usize) -> PinSlip
    requires { n ≤ n_max }
{
    if n <= 1 || v == n as i64 {
        PinSlip::Last
    } else {
        PinSlip::Out(n - 1)
    }
}

// How many numbers the line has; 0 where it is wrongly spelled.
pub fn count(text: &[u8], from: usize) -> usize
    requires { from ≤ length text.now }
{
    let mut vals = [0; PLACES];
    numbers_at(text, from, &mut vals).map_or(0, |list| list.value)
}

// The numbers of the line that have a place, if it is well spelled.
fn numbers_in(text: &[u8], from: usize) -> Option<[i64; PLACES]>
    requires { from ≤ length text.now }
{
    let mut vals = [0; PLACES];
    numbers_at(text, from, &mut vals)?;
    Some(vals)
}

// The first number that is beyond this size, with its place, counted from 1.
fn beyond(vals: &[i64], most: i64) -> Option<(usize, i64)> {
    let k = vals.iter().position(|v| !within(*v, most))?;
    Some((k + 1, vals[k]))
}

// The first number of the line that is beyond its size.
pub fn far(text: &[u8], from: usize, form: Form, n: usize) -> Option<Far>
    requires { (from ≤ length text.now) × (n ≤ n_max) }
{
    match form {
        Form::Number => Some(Far::Job(value(text, from))),
        Form::Visit => Some(Far::Visit(value(text, from))),
        Form::Unpinned(_) | Form::Low | Form::Numbers(Key::Lo | Key::Hi, _) => {
            let (k, v) = beyond(&numbers_in(text, from)?, END)?;
            Some(Far::End(k, v))
        }
        Form::Numbers(_, _) | Form::Sided(_) => {
            let (k, v) = beyond(&numbers_in(text, from)?, ENTRY)?;
            Some(Far::Entry(k, v))
        }
        Form::Terms(_) => {
            let q = terms_from(text, from, n).ok()?.value.equation;
            let (k, v) = beyond(&q.terms.map(|t| t.coef), ENTRY)?;
            Some(Far::Coefficient(k, v))
        }
        _ => None,
    }
}

// The first unknown whose high end lies below its low end.
pub fn crossing(text: &[u8], low: usize, high: usize) -> Option<Crossing>
    requires { (low ≤ length text.now) × (high ≤ length text.now) }
{
    let lo = numbers_in(text, low)?;
    let hi = numbers_in(text, high)?;
    let i = lo.iter().zip(&hi).position(|(low, high)| high < low)?;
    Some(Crossing {
        unknown: i + 1,
        low: lo[i],
        high: hi[i],
    })
}

pub fn terms_slip(text: &[u8], from: usize, n: usize) -> Option<TermSlip>
    requires { (from ≤ length text.now) × (n ≤ n_max) }
{
    term_slip(terms_from(text, from, n).ok()?.value.equation, n)
}
