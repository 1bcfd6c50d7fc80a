// The terms of an `eq` line, each taken where it stands.
#![tactic(auto)]

ghost use Rattle.std.specs.Prelude.{◌≡◌, true, ◌+◌, ◌≤◌, length, set};
ghost use Rattle.sizes.specs.Sizes.{n_max};
ghost use Rattle.term_text.specs.Terms.{read_terms, read_equation};
ghost use Rattle.reading.specs.Places.{part};
ghost use Rattle.scan.specs.Lines.{no_feed};
ghost use Rattle.term_read.specs.Terms.{exps_of, TermAt};
ghost use Rattle.term_read.specs.Lines.{is_mark, is_far, TermsFrom, DigitFrom};

use digits::is_digit;
use jobs::zero::{zero_equation, zero_term};
use jobs::{Equation, Term};
use scan::lines::key_at;
use scan::{At, is_at, number_at};
use sizes::{ENTRY, N, TERMS};
use term_checks::ranges::within;

// A line's terms: whether a coefficient is beyond its size, how many there are, and the first of them.
#[derive(Clone, Copy)]
pub struct Terms {
    pub far: bool,
    pub equation: Equation,
}

// Exponents, if each byte is a digit.
fn exps_at(s: &[u8], from: usize, n: usize) -> Option<[u8; N]>
    requires { (n ≤ n_max) × (from + n ≤ length s.now) }
    ensures { result ≡ exps_of n (part s.now from (from + n)) }
{
    let mut exps = [0; N];
    for k in 0..n {
        let b = s[from + k];
        if !is_digit(b) {
            return None;
        }
        exps[k] = b - b'0';
    }
    Some(exps)
}

// "terms `coefficient:exponents`, one digit for each unknown"
fn term_at(s: &[u8], from: usize, n: usize) -> Option<At<Term>>
    requires { (n ≤ n_max) × (from ≤ length s.now) }
    ensures { TermAt s.now from n result }
{
    let number = number_at(s, from)?;
    let c = number.next;
    if !is_at(s, c, b':') {
        return None;
    }
    if s.len() - c <= n {
        return None;
    }
    let exps = exps_at(s, c + 1, n)?;
    Some(At {
        value: Term {
            coef: number.value,
            exps,
        },
        next: c + 1 + n,
    })
}

fn is_mark(s: &[u8], at: usize) -> bool
    ensures { result ≡ is_mark s.now at }
{
    is_at(s, at, b',') || is_at(s, at, b'\n')
}

fn is_far(t: Term) -> bool
    ensures { result ≡ is_far t }
{
    !within(t.coef, ENTRY)
}

// The term at its place, if there is one.
fn put_term(terms: &mut [Term; TERMS], at: usize, t: Term)
    ensures { terms.new ≡ set terms.old at t }
{
    if at < TERMS {
        terms[at] = t;
    }
}

// n itself. Where the compiler sees that a count is at most N, it unrolls the loops that go so far.
pub fn bounded(n: usize) -> usize
    requires { n ≤ n_max }
    ensures { result ≡ n }
{
    n.min(N)
}

// The terms of a line from after its key, however many: those that have a place are kept. Of a line that is wrongly
// spelled: how many terms stand before the first wrong one, and where it begins.
pub fn terms_from(s: &[u8], from: usize, n: usize) -> Result<At<Terms>, At<usize>>
    requires { (n ≤ n_max) × (from ≤ length s.now) }
    ensures { TermsFrom (read_terms n) s.now from result }
{
    if is_at(s, from, b'\n') {
        return Ok(At {
            value: Terms {
                far: false,
                equation: zero_equation(),
            },
            next: from + 1,
        });
    }
    let few = bounded(n);
    let mut q = zero_equation();
    let mut far = false;
    let mut a = from;
    loop {
        let Some(term) = term_at(s, a, few) else {
            return Err(At {
                value: q.count,
                next: a,
            });
        };
        let next = term.next;
        if !is_mark(s, next) {
            return Err(At {
                value: q.count,
                next: a,
            });
        }
        far |= is_far(term.value);
        put_term(&mut q.terms, q.count, term.value);
        q.count += 1;
        a = next + 1;
        if is_at(s, next, b'\n') {
            return Ok(At {
                value: Terms { far, equation: q },
                next: a,
            });
        }
    }
}

// The terms of an `eq` line.
pub fn terms_at(s: &[u8], from: usize, n: usize) -> Result<At<Terms>, At<usize>>
    requires { (n ≤ n_max) × (from ≤ length s.now) }
    ensures { TermsFrom (read_equation n) s.now from result }
{
    let key = b"eq=";
    if !key_at(s, from, key) {
        return Err(At {
            value: 0,
            next: from,
        });
    }
    terms_from(s, from + key.len(), n)
}

// The one digit of a line after its key.
pub fn digit_at(s: &[u8], from: usize, key: &[u8]) -> Option<At<usize>>
    requires { (from ≤ length s.now) × (no_feed key.now ≡ true) }
    ensures { DigitFrom key.now s.now from result }
{
    if !key_at(s, from, key) {
        return None;
    }
    let a = from + key.len();
    let b = *s.get(a)?;
    if !is_digit(b) {
        return None;
    }
    if !is_at(s, a + 1, b'\n') {
        return None;
    }
    Some(At {
        value: usize::from(b - b'0'),
        next: a + 2,
    })
}
