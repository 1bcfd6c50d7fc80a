// The lines of a job text, put into a lent buffer one after another.
#![tactic(auto)]

mod rows;
mod system;

ghost use Rattle.std.specs.Prelude.{◌≡◌, ◌+◌, ◌≤◌, length};
ghost use Rattle.sizes.specs.Sizes.{text_max};
ghost use Rattle.checks.specs.Checks.{check_job};
ghost use Rattle.writing.specs.Wrote.{Wrote, line};
ghost use Rattle.lines.specs.Texts.{kind_text};
ghost use Rattle.reading.specs.Lines.{bytes};
ghost use Rattle.job_form.specs.JobBytes.{head_kinds, job_bytes};
ghost use Rattle.job_put.specs.Parts.{lines_bytes, pin_texts, body_kinds, PinFits, PartFits};

use digits::DIGITS;
use jobs::lines::pin_written;
use jobs::{Job, Kind};
use rows::put_inverse_line;
use system::put_system;
use writing::{put_count_line, put_row_line, put_word_line};

fn put_kind_line(buf: &mut [u8], at: usize, kind: Kind) -> usize
    requires { at ≤ text_max }
    ensures { Wrote buf.old buf.new at result (line (kind_text kind)) }
{
    match kind {
        Kind::Poly => put_word_line(buf, at, b"kind=", b"poly"),
        Kind::Linear => put_word_line(buf, at, b"kind=", b"linear"),
        Kind::Eigen => put_word_line(buf, at, b"kind=", b"eigen"),
    }
}

fn put_head(buf: &mut [u8], at: usize, j: Job) -> usize
    requires { at + length (lines_bytes j head_kinds) ≤ text_max }
    ensures { Wrote buf.old buf.new at result (lines_bytes j head_kinds) }
{
    let a = put_count_line(buf, at, b"job=", j.head.number);
    let b = put_kind_line(buf, a, j.head.kind);
    put_count_line(buf, b, b"n=", j.head.n as u64)
}

// An eigenpair's pin, where it is not n.
fn put_pin(buf: &mut [u8], at: usize, j: Job) -> usize
    requires { PinFits at j }
    ensures { Wrote buf.old buf.new at result (bytes (pin_texts j)) }
{
    if pin_written(j.head) {
        return put_count_line(buf, at, b"pin=", j.head.pin as u64);
    }
    at
}

fn put_body(buf: &mut [u8], at: usize, j: Job) -> usize
    requires { PartFits at j body_kinds }
    ensures { Wrote buf.old buf.new at result (lines_bytes j body_kinds) }
{
    let n = j.head.n;
    let a = put_row_line(buf, at, b"lo=", j.ends.lo, n, DIGITS);
    let b = put_row_line(buf, a, b"hi=", j.ends.hi, n, DIGITS);
    let c = put_inverse_line(buf, b, j.inv, n);
    put_count_line(buf, c, b"steps=", j.steps)
}

// The whole text, from the buffer's start on.
pub fn put_job(buf: &mut [u8], j: Job) -> usize
    requires { check_job j ≡ Ok tt }
    ensures { Wrote buf.old buf.new 0 result (job_bytes j) }
{
    let a = put_head(buf, 0, j);
    let b = put_pin(buf, a, j);
    let c = put_body(buf, b, j);
    put_system(buf, c, j)
}
