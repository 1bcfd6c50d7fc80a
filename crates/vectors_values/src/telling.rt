// What comes back for values: a status, and the whole of the lent buffer, which held dots.
use faults::{Checked, Refusal};
use jobs::{Job, Result};
use sizes::N;
use std::io;
use std::io::Write;

// More than any text here has.
const ROOM: usize = 128;

fn refused<W: Write>(to: &mut W, refusal: Refusal) -> io::Result<()> {
    write!(
        to,
        "fault={} line={}",
        u64::from(refusal.fault),
        refusal.line
    )
}

fn written<W: Write>(to: &mut W, w: Checked<usize>, buf: &[u8]) -> io::Result<()> {
    write!(to, "write: ")?;
    match w {
        Ok(len) => write!(to, "done length={len}")?,
        Err(refusal) => {
            refused(to, refusal)?;
            write!(to, " length=0")?;
        }
    }
    write!(to, "\n[")?;
    to.write_all(buf)?;
    writeln!(to, "]")
}

// Says whether the places past n are zero.
fn past<W: Write>(to: &mut W, xs: [i64; N], n: usize) -> io::Result<()> {
    if xs.iter().skip(n).all(|x| *x == 0) {
        write!(to, " zero")
    } else {
        write!(to, " not zero")
    }
}

pub fn result_into<W: Write>(to: &mut W, r: Result, out: &mut [u8]) -> io::Result<()> {
    let w = result_write::write_result(r, out);
    written(to, w, out)
}

fn show<W: Write>(to: &mut W, r: Result) -> io::Result<()> {
    let mut out = [b'.'; ROOM];
    result_into(to, r, &mut out)
}

pub fn result<W: Write>(to: &mut W, name: &str, r: Result) -> io::Result<()> {
    writeln!(to, "{name}")?;
    show(to, r)
}

// What the run answers.
fn ran<W: Write>(to: &mut W, j: Job) -> io::Result<()> {
    write!(to, "run: ")?;
    match run::run(j) {
        Ok(r) => {
            write!(to, "done, past n")?;
            past(to, r.lo, r.n)?;
            past(to, r.hi, r.n)?;
            writeln!(to)?;
            show(to, r)
        }
        Err(refusal) => {
            refused(to, refusal)?;
            writeln!(to)
        }
    }
}

pub fn job_into<W: Write>(to: &mut W, j: Job, out: &mut [u8]) -> io::Result<()> {
    let w = job_write::write_job(j, out);
    written(to, w, out)
}

pub fn job<W: Write>(to: &mut W, name: &str, j: Job) -> io::Result<()> {
    let mut out = [b'.'; ROOM];
    writeln!(to, "{name}")?;
    ran(to, j)?;
    job_into(to, j, &mut out)
}
