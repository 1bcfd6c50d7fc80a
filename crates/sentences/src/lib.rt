// The sentence beside a fault, for the typist: what stands there and what is expected.
#![tactic(auto)]

mod spelled;
mod values;

ghost use Rattle.std.specs.Prelude.{◌≡◌};
ghost use Rattle.faults.specs.Checked.{status_of};
ghost use Rattle.job_form.specs.JobForm.{read_job};
ghost use Rattle.result_form.specs.ResultForm.{read_result};
ghost use Rattle.slips.specs.Slips.{found_in};
ghost use Rattle.phrases.specs.Says.{Says, sentence_max};
ghost use Rattle.sentences.specs.Sentences.{long_words, short_words, unknowns_words, pinned_words, room_words};
ghost use Rattle.sentences.specs.Sentences.{words_of, slip_words, table_words};
ghost use Rattle.sentences.specs.Sentences.{Explains};

use phrases::{put_count, put_pin_range, put_value, say, tell};
use sizes::{N, STEPS, TEXT};
use slips::{PinSlip, RoomSlip, Slip};
use spelled::put_misspelled;
use text_slips::{job_slip, result_slip};
use values::{put_count_far, put_crossed, put_far, put_terms};

// The longest sentence: a buffer of this size has room for any.
pub const SENTENCE: usize = 256;

fn put_long(out: &mut [u8]) -> usize
    ensures { Says sentence_max out.old out.new 0 result long_words }
{
    tell(
        out,
        0,
        b"a text has at most ",
        TEXT as u64,
        b" bytes, this one has more",
    )
}

fn put_short(out: &mut [u8]) -> usize
    ensures { Says sentence_max out.old out.new 0 result short_words }
{
    say(out, 0, b"the answer is longer than its buffer")
}

fn put_unknowns(out: &mut [u8], n: usize) -> usize
    ensures { Says sentence_max out.old out.new 0 result (unknowns_words n) }
{
    let a = tell(out, 0, b"there are 1 to ", N as u64, b" unknowns, not ");
    put_count(out, a, n as u64)
}

fn put_pinned(out: &mut [u8], v: i64, slip: PinSlip) -> usize
    ensures { Says sentence_max out.old out.new 0 result (pinned_words v slip) }
{
    let a = say(out, 0, b"pin is ");
    let b = put_value(out, a, v);
    match slip {
        PinSlip::Last => say(
            out,
            b,
            b": the last coordinate is pinned without this line, leave the line out",
        ),
        PinSlip::Out(most) => put_pin_range(out, b, most),
    }
}

#[tactic(auto, unfolding(crate::specs::Sentences::room_words))]
fn room_bytes(slip: RoomSlip) -> &'static [u8]
    ensures { result.now ≡ room_words slip }
{
    match slip {
        RoomSlip::Full => b"all rooms are taken: close one first",
        RoomSlip::Visits => b"every visit number is handed out: clear the table first",
        RoomSlip::NotOpen => b"this slot does not hold this visit: it was closed, or never opened",
        RoomSlip::Table =>
            b"the bytes are no table of rooms: too few, or not only changed by its calls",
    }
}

#[tactic(auto, unfolding(crate::specs::Sentences::room_words))]
fn put_room(out: &mut [u8], slip: RoomSlip) -> usize
    ensures { Says sentence_max out.old out.new 0 result (room_words slip) }
{
    say(out, 0, room_bytes(slip))
}

#[tactic(auto, using(phrases::proofs::Says::says_as), unfolding(crate::specs::Sentences::words_of))]
fn put_found(out: &mut [u8], slip: Slip) -> usize
    ensures { Says sentence_max out.old out.new 0 result (words_of slip) }
{
    match slip {
        Slip::Long => put_long(out),
        Slip::Spelled(s) => put_misspelled(out, s),
        Slip::Unknowns(n) => put_unknowns(out, n),
        Slip::Beyond(far) => put_far(out, far),
        Slip::Crossed(at) => put_crossed(out, at),
        Slip::Terms(slip) => put_terms(out, slip),
        Slip::Short => put_short(out),
        Slip::Steps(v) => put_count_far(out, b"steps is ", v, STEPS),
        Slip::Pin(v, slip) => put_pinned(out, v, slip),
        Slip::Room(slip) => put_room(out, slip),
    }
}

// Nothing where there is no slip.
#[tactic(auto, using(phrases::proofs::Says::says_none), unfolding(crate::specs::Sentences::slip_words))]
fn put_slip(out: &mut [u8], slip: Option<Slip>) -> usize
    ensures { Says sentence_max out.old out.new 0 result (slip_words slip) }
{
    match slip {
        None => 0,
        Some(slip) => put_found(out, slip),
    }
}

// The sentence beside a job text's fault, for any bytes and any buffer: its length, 0 where there is no fault. What
// has no room is counted and not written.
pub fn explain_job(text: &[u8], out: &mut [u8]) -> usize
    ensures { Explains (found_in (status_of (read_job text.now))) out.old out.new result }
{
    put_slip(out, job_slip(text))
}

// The same beside a result text's fault.
pub fn explain_result(text: &[u8], out: &mut [u8]) -> usize
    ensures { Explains (found_in (status_of (read_result text.now)))
        out.old out.new result }
{
    put_slip(out, result_slip(text))
}

// The sentence of a fault of the table, by its number, for any buffer: 7 and 13 to 16, and nothing for another.
#[tactic(auto, using(phrases::proofs::Says::says_none), unfolding(crate::specs::Sentences::table_words))]
pub fn explain_table(fault: u64, out: &mut [u8]) -> usize
    ensures { Says sentence_max out.old out.new 0 result (table_words fault) }
{
    match fault {
        7 => put_short(out),
        13 => put_room(out, RoomSlip::Full),
        14 => put_room(out, RoomSlip::Visits),
        15 => put_room(out, RoomSlip::NotOpen),
        16 => put_room(out, RoomSlip::Table),
        _ => 0,
    }
}
