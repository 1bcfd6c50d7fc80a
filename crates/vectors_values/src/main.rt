// Hands bad values, and right ones with garbage in their dead places, to the run and to both writers, and prints what
// comes back. The same table stands in tests/second/values.py, which says what that should be.
#![tactic(auto)]

mod changes;
mod telling;
mod values;

use changes::{
    ends, entry, first_term, first_terms, inverse, last_term, number, pin, result_ends,
    result_number, result_steps, result_unknowns, result_visit, right, steps, unknowns,
};
use std::io;
use std::io::Write;
use telling::{job, job_into, result, result_into};
use values::{LEAST, MOST, term};

fn heads<W: Write>(to: &mut W) -> io::Result<()> {
    let p = values::poly();
    job(to, "poly", p)?;
    job(to, "number 1000000000", number(p, 1000000000))?;
    job(to, "number at most", number(p, MOST))?;
    job(to, "n 0", unknowns(p, 0))?;
    job(to, "n 7", unknowns(p, 7))?;
    job(to, "n at most", unknowns(p, MOST as usize))?;
    job(to, "number and n", unknowns(number(p, 1000000000), 7))?;
    job(to, "steps 0", steps(p, 0))?;
    job(to, "steps 1001", steps(p, 1001))?;
    job(to, "steps at most", steps(p, MOST))?;
    Ok(())
}

fn sides<W: Write>(to: &mut W) -> io::Result<()> {
    let p = values::poly();
    job(to, "low end beyond", ends(p, -262145, 0))?;
    job(to, "low end least", ends(p, LEAST, 0))?;
    job(to, "high end beyond", ends(p, 0, 262145))?;
    job(to, "ends crossed", ends(p, 1, 0))?;
    job(to, "ends crossed, high beyond", ends(p, 0, -262145))?;
    job(to, "ends without width", ends(p, 0, 0))?;
    job(to, "inverse beyond", inverse(p, 4194305))?;
    job(to, "inverse least", inverse(p, LEAST))?;
    Ok(())
}

fn terms<W: Write>(to: &mut W) -> io::Result<()> {
    let p = values::poly();
    job(to, "no term", first_terms(p, term(LEAST, 0, 0), 0))?;
    job(to, "17 terms", first_terms(p, term(1, 0, 0), 17))?;
    job(
        to,
        "17 terms, beyond",
        first_terms(p, term(LEAST, 0, 0), 17),
    )?;
    job(to, "coefficient beyond", first_term(p, term(4194305, 2, 0)))?;
    job(to, "coefficient least", last_term(p, term(LEAST, 0, 0)))?;
    job(to, "coefficient zero", last_term(p, term(0, 0, 0)))?;
    job(to, "exponent 10", first_term(p, term(1, 10, 0)))?;
    job(to, "exponents 255", first_term(p, term(1, 255, 255)))?;
    job(to, "degree 4", first_term(p, term(1, 2, 2)))?;
    job(to, "degree 4, beyond", first_term(p, term(4194305, 2, 2)))?;
    job(to, "terms alike", last_term(p, term(1, 0, 1)))?;
    job(to, "terms rising", last_term(p, term(1, 0, 2)))?;
    Ok(())
}

fn matrices<W: Write>(to: &mut W) -> io::Result<()> {
    let a = values::linear();
    job(to, "linear", a)?;
    job(to, "linear, entry beyond", entry(a, 4194305))?;
    job(to, "linear, right side beyond", right(a, -4194305))?;
    let e = values::eigen();
    job(to, "eigen", e)?;
    job(to, "eigen, entry least", entry(e, LEAST))?;
    Ok(())
}

// A pin of n stands for the last; any other moves the lines after it.
fn pins<W: Write>(to: &mut W) -> io::Result<()> {
    let e = values::eigen();
    let p = pin(e, 1);
    job(to, "pin 1", p)?;
    job(to, "pin 0", pin(e, 0))?;
    job(to, "pin 3", pin(e, 3))?;
    job(to, "pin at most", pin(e, MOST as usize))?;
    job(to, "n and pin", pin(unknowns(e, 7), 0))?;
    job(to, "pin and low end", pin(ends(e, -262145, 0), 0))?;
    job(to, "pin 1, low end beyond", ends(p, -262145, 0))?;
    job(to, "pin 1, ends crossed", ends(p, 1, 0))?;
    job(to, "pin 1, inverse beyond", inverse(p, 4194305))?;
    job(to, "pin 1, steps 1001", steps(p, 1001))?;
    job(to, "pin 1, entry least", entry(p, LEAST))?;
    Ok(())
}

fn results<W: Write>(to: &mut W) -> io::Result<()> {
    let r = values::result();
    result(to, "result", r)?;
    result(to, "result number 1000000000", result_number(r, 1000000000))?;
    result(to, "result visit 999999999", result_visit(r, 999999999))?;
    result(to, "result visit 1000000000", result_visit(r, 1000000000))?;
    result(to, "result visit at most", result_visit(r, MOST))?;
    result(
        to,
        "result number and visit",
        result_visit(result_number(r, 1000000000), 1000000000),
    )?;
    result(
        to,
        "result visit and steps",
        result_steps(result_visit(r, 1000000000), 1001),
    )?;
    result(to, "result steps 1001", result_steps(r, 1001))?;
    result(to, "result n 0", result_unknowns(r, 0))?;
    result(to, "result n 7", result_unknowns(r, 7))?;
    result(to, "result n at most", result_unknowns(r, MOST as usize))?;
    result(to, "result low end beyond", result_ends(r, -262145, 0))?;
    result(to, "result high end least", result_ends(r, 0, LEAST))?;
    result(to, "result ends crossed", result_ends(r, 1, 0))?;
    Ok(())
}

// Buffers of exactly a text's length, of one byte less and of one byte.
fn job_rooms<W: Write>(to: &mut W) -> io::Result<()> {
    let p = values::poly();
    let mut exact = [b'.'; 122];
    job_into(to, p, &mut exact)?;
    let mut short = [b'.'; 121];
    job_into(to, p, &mut short)?;
    let mut byte = [b'.'; 1];
    job_into(to, p, &mut byte)?;
    job_into(to, unknowns(p, 7), &mut byte)?;
    let e = pin(values::eigen(), 1);
    let mut pinned = [b'.'; 123];
    job_into(to, e, &mut pinned)?;
    let mut less = [b'.'; 122];
    job_into(to, e, &mut less)?;
    Ok(())
}

fn result_rooms<W: Write>(to: &mut W) -> io::Result<()> {
    let r = values::result();
    let mut exact = [b'.'; 57];
    result_into(to, r, &mut exact)?;
    let mut short = [b'.'; 56];
    result_into(to, r, &mut short)?;
    let mut byte = [b'.'; 1];
    result_into(to, result_unknowns(r, 0), &mut byte)?;
    Ok(())
}

fn main(rt: HostRuntime) -> io::Result<()> {
    let to = &mut rt.stdout();
    heads(to)?;
    sides(to)?;
    terms(to)?;
    matrices(to)?;
    pins(to)?;
    results(to)?;
    job_rooms(to)?;
    result_rooms(to)
}
