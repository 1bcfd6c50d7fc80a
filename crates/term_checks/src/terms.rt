// What an equation's terms must be. Terms past the count and exponents past n are not looked at.
ghost use Rattle.std.specs.Prelude.{◌≡◌, ◌≤◌};
ghost use Rattle.sizes.specs.Sizes.{n_max};
ghost use Rattle.jobs.specs.Places.{exp_of};
ghost use Rattle.term_checks.specs.Terms.{degree, falls, good_term, good_terms, good_coefs};

use crate::ranges::within;
use jobs::{Equation, Term};
use sizes::{DEGREE, ENTRY, TERMS};

// (A wider number than an exponent's holds the sum of any.)
pub fn degree_of(t: Term, n: usize) -> u64
    requires { n ≤ n_max }
    ensures { result ≡ degree n (exp_of t) }
{
    let mut sum = 0;
    for e in &t.exps[..n] {
        sum += u64::from(*e);
    }
    sum
}

// (By turns of a zip, as measured: `<` of the two slices made reading slower than the bench's bar for four unknowns.)
pub fn stands_before(t: Term, u: Term, n: usize) -> bool
    requires { n ≤ n_max }
    ensures { result ≡ falls t u n }
{
    for (low, high) in u.exps[..n].iter().zip(&t.exps[..n]) {
        if low != high {
            return low < high;
        }
    }
    false
}

pub fn good_term(t: Term, n: usize) -> bool
    requires { n ≤ n_max }
    ensures { result ≡ good_term t n }
{
    t.coef != 0 && degree_of(t, n) <= DEGREE
}

pub fn good_terms(q: Equation, n: usize) -> bool
    requires { n ≤ n_max }
    ensures { result ≡ good_terms q n }
{
    if TERMS < q.count {
        return false;
    }
    // Each term is looked at with the one before it: a zip of the two runs would be no plainer.
    for k in 0..q.count {
        if !good_term(q.terms[k], n) {
            return false;
        }
        if 0 < k && !stands_before(q.terms[k - 1], q.terms[k], n) {
            return false;
        }
    }
    true
}

// Of the terms that have a place.
pub fn good_coefs(q: Equation) -> bool
    ensures { result ≡ good_coefs q }
{
    for t in &q.terms[..q.count.min(TERMS)] {
        if !within(t.coef, ENTRY) {
            return false;
        }
    }
    true
}
