// A line of terms: where the reader of its terms stops, and which of its terms is not as it must be.
ghost use Rattle.std.specs.Prelude.{◌≤◌, length};
ghost use Rattle.sizes.specs.Sizes.{n_max, terms_max};

use crate::numbers::{after, in_place_of, no_end};
use crate::places::past_all;
use crate::{Field, Misspelling, TermSlip, WrongTerm};
use digits::is_digit;
use jobs::{Equation, Term};
use scan::number_at;
use sizes::{DEGREE, TERMS};
use term_checks::terms::{degree_of, stands_before};
use term_read::terms_from;

// After the colon of term k: the wrong count of exponents, or neither a comma nor LF behind them.
fn exponents(text: &[u8], from: usize, n: usize, k: usize) -> Misspelling
    requires { from ≤ length text.now }
{
    let end = past_all(text, from, is_digit);
    if end - from != n {
        return Misspelling::Term(k, WrongTerm::Exponents(end - from));
    }
    no_end(text, end, Misspelling::Term(k, WrongTerm::After))
}

// What is wrong with term k, which begins at this place.
fn wrong_term(text: &[u8], from: usize, n: usize, k: usize) -> Misspelling
    requires { from ≤ length text.now }
{
    let Some(number) = number_at(text, from) else {
        return in_place_of(text, from, Field::Coefficient(k));
    };
    let next = number.next;
    match text.get(next).copied() {
        None | Some(b'\n' | b',') => Misspelling::Term(k, WrongTerm::NoExponents),
        Some(b':') => exponents(text, next + 1, n, k),
        _ => after(text, next, Field::Coefficient(k), number.value),
    }
}

// Terms joined by commas, of which one is wrong.
pub fn terms(text: &[u8], from: usize, n: usize) -> Misspelling
    requires { (from ≤ length text.now) × (n ≤ n_max) }
{
    match terms_from(text, from, n) {
        Ok(right) => wrong_term(text, right.next, n, right.value.equation.count + 1),
        Err(wrong) => wrong_term(text, wrong.next, n, wrong.value + 1),
    }
}

// Term k, counted from 1, and the one after it, which do not stand in falling order.
fn pair_slip(before: Term, t: Term, k: usize, n: usize) -> TermSlip
    requires { (n ≤ n_max) × (k ≤ terms_max) }
{
    if stands_before(t, before, n) {
        TermSlip::Order(k, k + 1)
    } else {
        TermSlip::Same(k, k + 1)
    }
}

// The first of the terms that is not as it must be, by itself or beside the one before it.
pub fn term_slip(q: Equation, n: usize) -> Option<TermSlip>
    requires { n ≤ n_max }
{
    if TERMS < q.count {
        return Some(TermSlip::Many(q.count));
    }
    for (k, t) in q.terms[..q.count].iter().enumerate() {
        if t.coef == 0 {
            return Some(TermSlip::Zero(k + 1));
        }
        let degree = degree_of(*t, n);
        if DEGREE < degree {
            return Some(TermSlip::Degree(k + 1, degree));
        }
        if 0 < k && !stands_before(q.terms[k - 1], *t, n) {
            return Some(pair_slip(q.terms[k - 1], *t, k, n));
        }
    }
    None
}
