// The n lines of the system.
ghost use Rattle.writing.specs.Wrote.{Wrote, line};
ghost use Rattle.job_form.specs.JobBytes.{system_text, system_kinds};
ghost use Rattle.job_put.specs.Parts.{lines_bytes, PartFits, LineFits};

use crate::rows::put_sided_line;
use digits::DIGITS;
use jobs::{Job, Kind};
use term_write::put_equation_line;
use writing::put_row_line;

fn put_system_line(buf: &mut [u8], at: usize, j: Job, i: usize) -> usize
    requires { LineFits at j i }
    ensures { Wrote buf.old buf.new at result (line (system_text j.head.kind j i)) }
{
    let n = j.head.n;
    match j.head.kind {
        Kind::Poly => put_equation_line(buf, at, j.system.eqs[i], n),
        Kind::Linear => put_sided_line(buf, at, j.system.rows[i].at, n, j.system.right[i]),
        Kind::Eigen => put_row_line(buf, at, b"row=", j.system.rows[i].at, n, DIGITS),
    }
}

pub fn put_system(buf: &mut [u8], at: usize, j: Job) -> usize
    requires { PartFits at j (system_kinds j.head.n) }
    ensures { Wrote buf.old buf.new at result (lines_bytes j (system_kinds j.head.n)) }
{
    let n = j.head.n;
    let mut p = at;
    for i in 0..n {
        p = put_system_line(buf, p, j, i);
    }
    p
}
