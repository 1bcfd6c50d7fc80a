// The writer of an `eq` line.
#![tactic(auto)]

ghost use Rattle.std.specs.Prelude.{◌+◌, ◌<◌};
ghost use Rattle.text.specs.Lists.{joined};
ghost use Rattle.writing.specs.Wrote.{place_max, Wrote, line};
ghost use Rattle.term_write.specs.ShowTerms.{show_exponents, show_term, term_texts, equation_text};
ghost use Rattle.term_write.specs.ShowTerms.{comma_before, ExponentsFit, TermFits, EquationFits};

use digits::DIGITS;
use jobs::{Equation, Term};
use writing::{put_byte, put_bytes, put_number};

// A digit for each unknown.
fn put_exponents(buf: &mut [u8], at: usize, t: Term, n: usize) -> usize
    requires { ExponentsFit at n t }
    ensures { Wrote buf.old buf.new at result (show_exponents n t) }
{
    let mut p = at;
    for e in &t.exps[..n] {
        p = put_byte(buf, p, b'0' + *e);
    }
    p
}

fn put_term(buf: &mut [u8], at: usize, t: Term, n: usize) -> usize
    requires { TermFits at n t }
    ensures { Wrote buf.old buf.new at result (show_term n t) }
{
    let a = put_number(buf, at, t.coef, DIGITS);
    let b = put_byte(buf, a, b':');
    put_exponents(buf, b, t, n)
}

// What stands before item i of a list.
fn put_comma(buf: &mut [u8], at: usize, i: usize) -> usize
    requires { at < place_max }
    ensures { Wrote buf.old buf.new at result (comma_before i) }
{
    if i == 0 {
        return at;
    }
    put_byte(buf, at, b',')
}

fn put_terms(buf: &mut [u8], at: usize, q: Equation, n: usize) -> usize
    requires { EquationFits at n q }
    ensures { Wrote buf.old buf.new at result (joined (term_texts n q q.count)) }
{
    let mut p = at;
    for (i, t) in q.terms[..q.count].iter().enumerate() {
        p = put_comma(buf, p, i);
        p = put_term(buf, p, *t, n);
    }
    p
}

// The line of an equation in n unknowns.
pub fn put_equation_line(buf: &mut [u8], at: usize, q: Equation, n: usize) -> usize
    requires { EquationFits (at + 3) n q }
    ensures { Wrote buf.old buf.new at result (line (equation_text n q)) }
{
    let a = put_bytes(buf, at, b"eq=");
    let b = put_terms(buf, a, q, n);
    put_byte(buf, b, b'\n')
}
