// The writer of a result text.
#![tactic(auto)]

ghost use Rattle.std.specs.Prelude.{◌≡◌, length, leb, ◌≤◌};
ghost use Rattle.sizes.specs.Sizes.{text_max};
ghost use Rattle.checks.specs.CheckResult.{check_result};
ghost use Rattle.writing.specs.Wrote.{Wrote, line};
ghost use Rattle.faults.specs.Answer.{Leaves};
ghost use Rattle.lines.specs.Texts.{verdict_text};
ghost use Rattle.result_form.specs.ResultShows.{show_result};
ghost use Rattle.result_write.specs.Ready.{Ready};

use checks::result::check_result;
use digits::DIGITS;
use faults::{Checked, Fault, refused};
use jobs::{Result, Verdict};
use sizes::TEXT;
use writing::{put_count_line, put_row_line, put_word_line};

fn put_verdict(buf: &mut [u8], at: usize, v: Verdict) -> usize
    requires { at ≤ text_max }
    ensures { Wrote buf.old buf.new at result (line (verdict_text v)) }
{
    match v {
        Verdict::None => put_word_line(buf, at, b"verdict=", b"none"),
        Verdict::Unique => put_word_line(buf, at, b"verdict=", b"unique"),
        Verdict::Stalled => put_word_line(buf, at, b"verdict=", b"stalled"),
        Verdict::Spent => put_word_line(buf, at, b"verdict=", b"spent"),
    }
}

// The whole text, from the buffer's start on.
fn put_result(buf: &mut [u8], r: Result) -> usize
    requires { Ready r }
    ensures { Wrote buf.old buf.new 0 result (show_result r) }
{
    let a = put_count_line(buf, 0, b"job=", r.number);
    let b = put_count_line(buf, a, b"visit=", r.visit);
    let c = put_verdict(buf, b, r.verdict);
    let d = put_count_line(buf, c, b"steps=", r.steps);
    let e = put_row_line(buf, d, b"lo=", r.lo, r.n, DIGITS);
    put_row_line(buf, e, b"hi=", r.hi, r.n, DIGITS)
}

// The same writer on a buffer of one byte measures the text. It need not where the room is that of any text.
fn fits(r: Result, room: usize) -> bool
    requires { Ready r }
    ensures { result ≡ leb (length (show_result r)) room }
{
    if TEXT <= room {
        return true;
    }
    let mut scratch = [0u8; 1];
    let len = put_result(&mut scratch, r);
    len <= room
}

// The text of a result whose check found nothing, for any buffer.
pub fn write_ready(r: Result, out: &mut [u8]) -> Checked<usize>
    requires { check_result r ≡ Ok tt }
    ensures { Leaves (Ok tt) (show_result r) out.old out.new result }
{
    if !fits(r, out.len()) {
        return refused(Fault::ShortBuffer, 0);
    }
    Ok(put_result(out, r))
}

// A result's text, for any values and any buffer.
pub fn write_result(r: Result, out: &mut [u8]) -> Checked<usize>
    ensures { Leaves (check_result r) (show_result r) out.old out.new result }
{
    check_result(r)?;
    write_ready(r, out)
}
