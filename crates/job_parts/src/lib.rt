// A job text that arrives in parts: begin, take a part, end. One line is held and what the lines before it say, never
// the text.
#![tactic(auto)]

ghost use Rattle.std.specs.Prelude.{◌≡◌, true};
ghost use Rattle.job_parts.specs.Limits.{fits};
ghost use Rattle.job_parts.specs.Parts.{begun, bytes_taken, part_taken, end_of};

use faults::{Checked, Fault, refused};
use jobs::Job;
use jobs::lines::job_line_number;
use next_line::Read;
use next_line::line::line_taken;
use next_line::state::{head_of, job_of, line_in, nothing_read, read_within};
use sizes::TEXT;

// How many bytes came, up to one over the limit; how many of them are of the line that has not ended, and that line.
#[repr(C)]
#[derive(Clone, Copy)]
pub struct Parts {
    pub size: usize,
    pub held: usize,
    pub read: Read,
    pub bytes: [u8; TEXT],
}

#[derive(Clone, Copy)]
pub struct Taken {
    pub status: Checked<()>,
    pub parts: Parts,
}

pub fn begin() -> Parts
    ensures { result ≡ begun }
{
    Parts {
        size: 0,
        held: 0,
        read: nothing_read(),
        bytes: [0; TEXT],
    }
}

#[tactic(auto, unfolding(crate::specs::Limits::fits))]
pub fn within_limits(p: Parts) -> bool
    ensures { result ≡ fits p }
{
    p.size <= TEXT + 1 && p.held <= p.size && p.held <= TEXT && read_within(p.read)
}

// The bytes of a part, one after another.
fn take_bytes(p: Parts, part: &[u8]) -> Parts
    requires { fits p ≡ true }
    ensures { result ≡ bytes_taken p part.now }
{
    let mut s = p;
    for &b in part {
        if TEXT <= s.size {
            s.size = TEXT + 1;
            return s;
        }
        s.bytes[s.held] = b;
        s.size += 1;
        if b == b'\n' {
            s.held = 0;
            if s.read.fault == 0 {
                s.read = line_taken(s.read, &s.bytes);
            }
        } else {
            s.held += 1;
        }
    }
    s
}

// A part of any length, zero included.
#[tactic(auto, unfolding(crate::specs::Parts::part_taken))]
pub fn take(p: Parts, part: &[u8]) -> Taken
    ensures { result ≡ part_taken p part.now }
{
    if !within_limits(p) {
        return Taken {
            status: refused(Fault::Beyond, 0),
            parts: p,
        };
    }
    Taken {
        status: Ok(()),
        parts: take_bytes(p, part),
    }
}

// The text has ended.
pub fn end(p: Parts) -> Checked<Job>
    ensures { result ≡ end_of p }
{
    if !within_limits(p) {
        return refused(Fault::Beyond, 0);
    }
    if TEXT < p.size {
        return refused(Fault::LongText, 0);
    }
    let read = p.read;
    if read.fault != 0 {
        return refused(Fault::from(read.fault), read.line);
    }
    if 0 < p.held || read.next != 0 {
        let missing = job_line_number(line_in(read.next), head_of(read));
        return refused(Fault::Spelling, missing);
    }
    Ok(job_of(read))
}
