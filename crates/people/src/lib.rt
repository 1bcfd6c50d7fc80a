// For people: one text's answer, and a plain sentence beside a fault.
#![tactic(auto)]

mod asked;
mod listed;

use crate::asked::Asked;
use crate::listed::{print, print_fault};
use answers::{ROOM, reply, tell};
use faults::Checked;
use halving::NUMBERS;
use listing::list_text;
use requests::Op;
use sizes::TEXT;
use std::io::{Read, Write};
use streams::outcomes::Outcome;
use streams::{fill, write_whole};

// The argument of the program that says how deep a job is halved.
pub const DEPTH_PLACE: usize = 2;

// What a text is answered by.
#[derive(Clone, Copy)]
pub enum How {
    Reply(Op),
    Show,
    Step,
}

// No command has arguments of batch.
fn answer(how: How, text: &[u8], out: &mut [u8]) -> Checked<usize> {
    match how {
        How::Reply(op) => reply(op, b"", text, out),
        How::Show => units::show(text, out),
        How::Step => step_text::step(text, out),
    }
}

fn list<W: Write, E: Write>(
    out: &mut W,
    err: &mut E,
    depth: i64,
    asked: Asked,
    list: &mut [i64],
) -> Outcome {
    let listed = list_text(asked.text, depth, list);
    let whole = match listed {
        Ok(l) => print(out, l, list),
        Err(refusal) => print_fault(out, refusal),
    };
    match whole {
        Ok(()) => asked.outcome(err, listed.err()),
        Err(e) => Outcome::Unwritten(e),
    }
}

// All closing positions of a job text. The depth was typed as these bytes.
pub fn halve<R: Read, W: Write, E: Write>(
    reader: &mut R,
    out: &mut W,
    err: &mut E,
    depth: i64,
    typed: &[u8],
    name: &[u8],
) -> Outcome {
    let mut buf = [0u8; TEXT + 1];
    let n = match fill(reader, &mut buf) {
        Ok(n) => n,
        Err(e) => return Outcome::Unread(e),
    };
    let asked = Asked {
        name,
        typed,
        text: &buf[..n],
        res: false,
    };
    list(out, err, depth, asked, &mut [0; NUMBERS])
}

// Of a text that is too long, one byte more than may be is read.
pub fn one<R: Read, W: Write, E: Write>(
    reader: &mut R,
    out: &mut W,
    err: &mut E,
    how: How,
    name: &[u8],
) -> Outcome {
    let mut buf = [0u8; TEXT + 1];
    let n = match fill(reader, &mut buf) {
        Ok(n) => n,
        Err(e) => return Outcome::Unread(e),
    };
    // Every other command reads a job text.
    let asked = Asked {
        name,
        typed: b"",
        text: &buf[..n],
        res: matches!(how, How::Reply(Op::Result)),
    };
    let mut room = [0u8; ROOM];
    let a = answer(how, asked.text, &mut room);
    let k = tell(a, &mut room);
    match write_whole(out, &room[..k]) {
        Ok(()) => asked.outcome(err, a.err()),
        Err(e) => Outcome::Unwritten(e),
    }
}
