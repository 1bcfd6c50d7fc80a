// What is wrong with a text that its reader refuses: the reader says which line, and the line what stands there.
#![tactic(auto)]

ghost use Rattle.std.specs.Prelude.{◌≡◌, ◌≤◌, length};
ghost use Rattle.sizes.specs.Sizes.{n_max};
ghost use Rattle.faults.specs.Checked.{status_of};
ghost use Rattle.faults.specs.declared.Fault.{Fault};
ghost use Rattle.job_form.specs.JobForm.{read_job};
ghost use Rattle.result_form.specs.ResultForm.{read_result};
ghost use Rattle.slips.specs.Slips.{slip_fault, fault_of, found_in};
ghost use Rattle.text_slips.specs.Seen.{Inside};

use faults::Fault;
use job_read::first::{head_at, names_at};
use job_read::read_status;
use jobs::lines::{job_line_number, job_line_of, result_line_number, result_line_of};
use jobs::zero::zero_head;
use jobs::{Head, JobLine, ResultLine};
use result_read::read_result;
use sizes::N;
use slips::forms::{job_form, key_of, result_form};
use slips::keys::past_key;
use slips::places::line_start;
use slips::spelling::line_slip;
use slips::values::{count, crossing, far, pin_slip, terms_slip, value};
use slips::{Form, Key, RoomSlip, Slip, Spelled};
use term_read::digit_at;

// A line that is refused: its number, where it begins and where its key ends, what it must be, and where the low ends
// stand.
#[derive(Clone, Copy)]
struct Seen {
    line: u64,
    at: usize,
    from: usize,
    form: Form,
    n: usize,
    low: usize,
}

// Where the key ends that stands there, and this very place where it does not.
fn behind(text: &[u8], at: usize, key: Key) -> usize
    requires { at ≤ length text.now }
    ensures { result ≤ length text.now }
{
    past_key(text, at, key).unwrap_or(at)
}

fn behind_own(text: &[u8], at: usize, form: Form) -> usize
    requires { at ≤ length text.now }
    ensures { result ≤ length text.now }
{
    match key_of(form) {
        None => at,
        Some(key) => behind(text, at, key),
    }
}

// The unknowns that a job or a result names: the digit of n=, or the length of lo=.
fn unknowns(text: &[u8], s: Seen) -> usize
    requires { Inside text.now s }
{
    match s.form {
        Form::Low => count(text, s.from),
        _ => digit_at(text, s.at, b"n=").map_or(0, |digit| digit.value),
    }
}

fn spelled(text: &[u8], s: Seen) -> Spelled
    requires { Inside text.now s }
{
    Spelled {
        line: s.line,
        n: s.n,
        form: s.form,
        slip: line_slip(text, s.at, s.form, s.n),
    }
}

// The pin by its own key, which with one unknown is not that of the form.
fn pinned(text: &[u8], s: Seen) -> Slip
    requires { Inside text.now s }
    ensures { slip_fault result ≡ Fault.Pin }
{
    let v = value(text, behind(text, s.at, Key::Pin));
    Slip::Pin(v, pin_slip(v, s.n))
}

fn slip_of(text: &[u8], f: Fault, s: Seen) -> Slip
    requires { Inside text.now s }
    ensures { slip_fault result ≡ f }
{
    match f {
        Fault::LongText => Slip::Long,
        Fault::Spelling => Slip::Spelled(spelled(text, s)),
        Fault::Unknowns => Slip::Unknowns(unknowns(text, s)),
        Fault::Beyond => Slip::Beyond(far(text, s.from, s.form, s.n)),
        Fault::Crossed => Slip::Crossed(crossing(text, s.low, s.from)),
        Fault::Terms => Slip::Terms(terms_slip(text, s.from, s.n)),
        Fault::ShortBuffer => Slip::Short,
        Fault::Steps => Slip::Steps(value(text, s.from)),
        Fault::Pin => pinned(text, s),
        Fault::Full => Slip::Room(RoomSlip::Full),
        Fault::Visits => Slip::Room(RoomSlip::Visits),
        Fault::NotOpen => Slip::Room(RoomSlip::NotOpen),
        Fault::Table => Slip::Room(RoomSlip::Table),
    }
}

// The head of a job text: beside a bad pin its kind and n stand, beside an earlier fault all is zero.
fn head_in(text: &[u8]) -> Head
    ensures { result.n ≤ n_max }
{
    match head_at(text).or_else(|_| names_at(text)) {
        Ok(head) => head.value,
        Err(_) => zero_head(),
    }
}

// The line of a job text that has this number; the lines before it are right.
fn job_seen(text: &[u8], line: u64) -> Seen
    ensures { Inside text.now result }
{
    let head = head_in(text);
    let at = line_start(text, line);
    let form = job_form(text, at, job_line_of(line, head), head);
    let low = line_start(text, job_line_number(JobLine::Lo, head));
    Seen {
        line,
        at,
        from: behind_own(text, at, form),
        form,
        n: head.n,
        low: behind(text, low, Key::Lo),
    }
}

// A result with more unknowns than there are has no n.
fn few(n: usize) -> usize
    ensures { result ≤ n_max }
{
    if n <= N { n } else { 0 }
}

// The same of a result text.
fn result_seen(text: &[u8], line: u64) -> Seen
    ensures { Inside text.now result }
{
    let low = line_start(text, result_line_number(ResultLine::Lo));
    let low = behind(text, low, Key::Lo);
    let n = few(count(text, low));
    let form = result_form(result_line_of(line), n);
    let at = line_start(text, line);
    Seen {
        line,
        at,
        from: behind_own(text, at, form),
        form,
        n,
        low,
    }
}

// What is wrong with a job text, if anything.
pub fn job_slip(text: &[u8]) -> Option<Slip>
    ensures { fault_of result ≡ found_in (status_of (read_job text.now)) }
{
    let refusal = read_status(text).err()?;
    Some(slip_of(text, refusal.fault, job_seen(text, refusal.line)))
}

// What is wrong with a result text, if anything.
pub fn result_slip(text: &[u8]) -> Option<Slip>
    ensures { fault_of result ≡ found_in (status_of (read_result text.now)) }
{
    let refusal = read_result(text).err()?;
    Some(slip_of(text, refusal.fault, result_seen(text, refusal.line)))
}
