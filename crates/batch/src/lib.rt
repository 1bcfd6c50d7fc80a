// Many requests in one run, read and written by large blocks. Answers wait until the next read, which could wait
// itself, or until they fill a block.
#![tactic(auto)]

mod input;
mod output;
mod refusals;

ghost use Rattle.std.specs.Prelude.{◌-◌, IfOk};
ghost use Rattle.listing.specs.Listing.{Readable};
ghost use Rattle.requests.specs.Packets.{PlacesIn};
ghost use Rattle.requests.specs.declared.packets.Seen.{Seen};

use crate::input::Input;
use crate::output::Output;
use crate::refusals::{at_end, bad_line, bad_text};
use answers::{ROOM, deep_asked, reply, reply_call, tell};
use faults::Checked;
use halving::{LISTED, NUMBERS};
use listing::{Listing, list_text, put_all};
use requests::Named;
use requests::packets::{Packet, Seen, look};
use rooms::TABLE;
use std::io;
use std::io::{Read, Write};
use streams::outcomes::Outcome;

const BLOCK: usize = 65536;

// More of the input, once the answers are written.
fn more<R: Read, W: Write>(input: &mut Input<R>, output: &mut Output<W>) -> Result<(), Outcome> {
    output.write().map_err(Outcome::Unwritten)?;
    let came = input.more().map_err(Outcome::Unread)?;
    if came == 0 {
        return Err(at_end(output, input.at_hand()));
    }
    Ok(())
}

// A packet is answered: its bytes, and those of its text that are not kept, are passed over.
fn pass<R: Read, W: Write>(
    input: &mut Input<R>,
    output: &mut Output<W>,
    p: Packet,
) -> Result<(), Outcome> {
    input.pass(p.to as u64);
    let left = input.pass(p.passed);
    if left == 0 {
        return Ok(());
    }
    output.write().map_err(Outcome::Unwritten)?;
    if !input.skip(left).map_err(Outcome::Unread)? {
        return Err(bad_text(output));
    }
    Ok(())
}

// The pieces of a listing behind the answers that wait. (Of the pieces that are measured none is kept.)
fn add_boxes<W: Write>(output: &mut Output<W>, l: Listing, list: &[i64]) -> io::Result<()>
    requires { Readable l list.now }
{
    output.add_head(l, put_all(&mut [0], l, list))?;
    for i in 0..l.boxes {
        output.add_box(l.n, list, i)?;
    }
    Ok(())
}

fn add_listing<W: Write>(
    output: &mut Output<W>,
    l: Checked<Listing>,
    list: &[i64],
) -> io::Result<()>
    requires { IfOk l (λ ok. Readable ok list.now) }
{
    match l {
        Ok(l) => add_boxes(output, l, list),
        Err(refusal) => {
            let mut room = [0u8; ROOM];
            let n = tell(Err(refusal), &mut room);
            output.add(&room[..n])
        }
    }
}

// A listing, into a list of as many numbers as the request gives it room for.
fn ask_boxes<R: Read, W: Write>(
    input: &mut Input<R>,
    output: &mut Output<W>,
    p: Packet,
) -> Result<(), Outcome>
    requires { PlacesIn (Seen.Whole p) (input.old.end - input.old.at) }
{
    let have = input.at_hand();
    let deep = deep_asked(&have[..p.words]);
    let mut numbers = [0i64; NUMBERS];
    let list = &mut numbers[..LISTED * deep.room];
    let l = list_text(&have[p.from..p.to], deep.depth, list);
    pass(input, output, p)?;
    add_listing(output, l, list).map_err(Outcome::Unwritten)
}

// The answer is added once all of its request has come.
fn ask<R: Read, W: Write>(
    input: &mut Input<R>,
    output: &mut Output<W>,
    room: &mut [u8; ROOM],
    table: &mut [u8],
    p: Packet,
) -> Result<(), Outcome>
    requires { PlacesIn (Seen.Whole p) (input.old.end - input.old.at) }
{
    let have = input.at_hand();
    let words = &have[..p.words];
    let text = &have[p.from..p.to];
    let a = match p.named {
        Named::Is(op) => reply(op, words, text, room),
        Named::Calls(call) => reply_call(call, table, words, text, room),
        Named::Lists => return ask_boxes(input, output, p),
    };
    let n = tell(a, room);
    pass(input, output, p)?;
    output.add(&room[..n]).map_err(Outcome::Unwritten)
}

// What the bytes at hand ask for next.
fn turn<R: Read, W: Write>(
    input: &mut Input<R>,
    output: &mut Output<W>,
    room: &mut [u8; ROOM],
    table: &mut [u8],
) -> Result<(), Outcome> {
    match look(input.at_hand()) {
        Seen::More => more(input, output),
        Seen::Bad => {
            output.write().map_err(Outcome::Unwritten)?;
            Err(bad_line(output))
        }
        Seen::Whole(p) => ask(input, output, room, table, p),
    }
}

// Nothing says that the input ends, so the turns are counted, up to a number that no run comes to. The room of an
// answer is made once, so that no request clears it, and so is the table of rooms, of which all are free.
pub fn all<R: Read, W: Write>(reader: &mut R, writer: &mut W) -> Outcome {
    let mut input = Input::new(reader);
    let mut output = Output::new(writer);
    let mut room = [0u8; ROOM];
    let mut table = [0u8; TABLE];
    for _ in 0..u64::MAX {
        if let Err(outcome) = turn(&mut input, &mut output, &mut room, &mut table) {
            return outcome;
        }
    }
    Outcome::Answered
}
