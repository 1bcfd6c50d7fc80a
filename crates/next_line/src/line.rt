// The line that has ended, by the function of its kind that the reader of a whole text calls too.
ghost use Rattle.std.specs.Prelude.{◌≡◌, true, ◌<◌, ◌≤◌, length};
ghost use Rattle.reading.specs.Places.{line_end};
ghost use Rattle.scan.specs.Lines.{line_of};
ghost use Rattle.jobs.specs.declared.JobLine.{JobLine};
ghost use Rattle.job_form.specs.JobForm.{low_says};
ghost use Rattle.next_line.specs.State.{place_of, job_of, read_from, line_read, stopped_by, line_taken};
ghost use Rattle.next_line.specs.Limits.{place_max, read_fits, LineReady};

use crate::Read;
use crate::state::{head_of, kind_number, kind_of, line_in, place_of};
use crate::system::system_taken;
use faults::Fault;
use jobs::JobLine;
use jobs::lines::{after_n, job_line_number, last_pin};
use line_read::counts::{number_line, pin_line, pin_stands, steps_line, unknowns_line};
use line_read::words::kind_line;
use list_read::numbers::{high_line, inverse_line, low_line};
use sizes::TEXT;

// The first bad line: what the lines before it say stays.
fn stopped(r: Read, fault: Fault, number: u64) -> Read
    ensures { result ≡ stopped_by r fault number }
{
    let mut s = r;
    s.fault = u64::from(fault);
    s.line = number;
    s
}

fn number_taken(r: Read, line: &[u8; TEXT]) -> Result<Read, Fault>
    requires { LineReady r line.now }
    ensures { result ≡ line_read r JobLine.Number line.now }
{
    let mut s = r;
    s.number = number_line(line, 0)?.value;
    s.next = place_of(JobLine::Kind);
    Ok(s)
}

fn kind_taken(r: Read, line: &[u8; TEXT]) -> Result<Read, Fault>
    requires { LineReady r line.now }
    ensures { result ≡ line_read r JobLine.Kind line.now }
{
    let mut s = r;
    s.kind = kind_number(kind_line(line, 0)?.value);
    s.next = place_of(JobLine::Unknowns);
    Ok(s)
}

fn unknowns_taken(r: Read, line: &[u8; TEXT]) -> Result<Read, Fault>
    requires { LineReady r line.now }
    ensures { result ≡ line_read r JobLine.Unknowns line.now }
{
    let n = unknowns_line(line, 0)?.value;
    let kind = kind_of(r.kind);
    let mut s = r;
    s.n = n;
    s.pin = last_pin(kind, n);
    s.next = place_of(after_n(kind));
    Ok(s)
}

fn low_taken(r: Read, line: &[u8; TEXT]) -> Result<Read, Fault>
    requires { LineReady r line.now }
    ensures { result ≡ read_from r (low_says (job_of r) (line_of line.now 0)) }
{
    let lo = low_line(line, 0, r.n)?.value;
    let mut s = r;
    s.lo = lo;
    s.next = place_of(JobLine::Hi);
    Ok(s)
}

// The pin or, where none is written, lo in its place.
fn pin_taken(r: Read, line: &[u8; TEXT]) -> Result<Read, Fault>
    requires { LineReady r line.now }
    ensures { result ≡ line_read r JobLine.Pin line.now }
{
    if !pin_stands(line, 0) {
        return low_taken(r, line);
    }
    let mut s = r;
    s.pin = pin_line(line, 0, r.n)?.value;
    s.next = place_of(JobLine::Lo);
    Ok(s)
}

fn high_taken(r: Read, line: &[u8; TEXT]) -> Result<Read, Fault>
    requires { LineReady r line.now }
    ensures { result ≡ line_read r JobLine.Hi line.now }
{
    let hi = high_line(line, 0, r.n, r.lo)?.value;
    let mut s = r;
    s.hi = hi;
    s.next = place_of(JobLine::Inv);
    Ok(s)
}

fn inverse_taken(r: Read, line: &[u8; TEXT]) -> Result<Read, Fault>
    requires { LineReady r line.now }
    ensures { result ≡ line_read r JobLine.Inv line.now }
{
    let inv = inverse_line(line, 0, r.n)?.value;
    let mut s = r;
    s.inv = inv;
    s.next = place_of(JobLine::Steps);
    Ok(s)
}

fn steps_taken(r: Read, line: &[u8; TEXT]) -> Result<Read, Fault>
    requires { LineReady r line.now }
    ensures { result ≡ line_read r JobLine.Steps line.now }
{
    let mut s = r;
    s.steps = steps_line(line, 0)?.value;
    s.next = place_of(JobLine::System(0));
    Ok(s)
}

// The line as one of this kind.
fn taken_as(k: JobLine, r: Read, line: &[u8; TEXT]) -> Result<Read, Fault>
    requires line_ready { LineReady r line.now }
    requires line_placed { place_of k ≤ place_max }
    ensures { result ≡ line_read r k line.now }
{
    match k {
        JobLine::Number => number_taken(r, line),
        JobLine::Kind => kind_taken(r, line),
        JobLine::Unknowns => unknowns_taken(r, line),
        JobLine::Pin => pin_taken(r, line),
        JobLine::Lo => low_taken(r, line),
        JobLine::Hi => high_taken(r, line),
        JobLine::Inv => inverse_taken(r, line),
        JobLine::Steps => steps_taken(r, line),
        JobLine::System(i) => system_taken(r, i, line),
        JobLine::End => Err(Fault::Spelling),
    }
}

// The next line, where none was bad.
pub fn line_taken(r: Read, line: &[u8; TEXT]) -> Read
    requires line_in_bounds { (line_end line.now 0 < length line.now) × (read_fits r ≡ true) }
    requires fault_value { r.fault ≡ 0 }
    ensures { result ≡ line_taken r line.now }
{
    let k = line_in(r.next);
    match taken_as(k, r, line) {
        Ok(s) => s,
        Err(fault) => stopped(r, fault, job_line_number(k, head_of(r))),
    }
}
