// What a call on the table of rooms is answered with.
ghost use Rattle.std.specs.Prelude.{◌≡◌, ◌≤◌, length, Ok, Err, MatchResult};
ghost use Rattle.faults.specs.Answer.{Leaves};
ghost use Rattle.writing.specs.Wrote.{Wrote};
ghost use Rattle.result_form.specs.ResultShows.{show_result};
ghost use Rattle.room_form.specs.Table.{room_at, visit_in};
ghost use Rattle.room_form.specs.Calls.{lowest_free, open_status, next_visit, opened, held_status, after_step};
ghost use Rattle.room_form.specs.Calls.{stepped, closed};
ghost use Rattle.answers.specs.Answers.{room_max};
ghost use Rattle.answers.specs.Calls.{shown_asked, read_asked, opened_bytes, or_short};
ghost use Rattle.answers.specs.Calls.{call_status, call_text, call_table};

use crate::ROOM;
use arguments::words::first_word;
use arguments::{Shown, read_of, shown_of};
use faults::Checked;
use requests::Call;
use writing::put_count_line;

// Where they are not good.
const NOT_SHOWN: Shown = Shown {
    slot: 0,
    visit: 0,
    room: 0,
};

// What `step SLOT VISIT` and `close SLOT VISIT` are told.
#[tactic(auto, unfolding(crate::specs::Calls::shown_asked))]
fn shown_asked(words: &[u8]) -> Shown
    ensures { result ≡ shown_asked words.now }
{
    let (_, asked) = first_word(words);
    shown_of(asked).unwrap_or(NOT_SHOWN)
}

// What `reading SLOT VISIT ROOM` is told.
#[tactic(auto, unfolding(crate::specs::Calls::read_asked))]
fn read_asked(words: &[u8]) -> Shown
    ensures { result ≡ read_asked words.now }
{
    let (_, asked) = first_word(words);
    read_of(asked).unwrap_or(NOT_SHOWN)
}

// An answer of no text.
fn silent(status: Checked<()>) -> Checked<usize>
    ensures { MatchResult status (λ u. result ≡ Ok 0) (λ r. result ≡ Err r) }
{
    status.map(|()| 0)
}

#[tactic(auto, unfolding(crate::specs::Calls::opened_bytes))]
fn put_opened(out: &mut [u8], slot: u64, visit: u64) -> usize
    ensures { Wrote out.old out.new 0 result (opened_bytes slot visit) }
{
    let a = put_count_line(out, 0, b"slot=", slot);
    put_count_line(out, a, b"visit=", visit)
}

fn reply_open(table: &mut [u8], text: &[u8], out: &mut [u8]) -> Checked<usize>
    requires { room_max ≤ length out.old }
    ensures answer { Leaves (open_status table.old text.now)
        (opened_bytes (lowest_free table.old) (next_visit table.old)) out.old
        out.new result }
    ensures table { table.new ≡ opened table.old text.now }
{
    let opened = rooms::open(table, text)?;
    Ok(put_opened(out, opened.slot as u64, opened.visit))
}

fn reply_step(table: &mut [u8], words: &[u8], out: &mut [u8]) -> Checked<usize>
    ensures answer { Leaves
        (held_status table.old (shown_asked words.now).slot
        (shown_asked words.now).visit)
        (show_result (after_step table.old (shown_asked words.now).slot)) out.old
        out.new result }
    ensures table { table.new
        ≡ stepped table.old (shown_asked words.now).slot
        (shown_asked words.now).visit (length out.old) }
{
    let shown = shown_asked(words);
    rooms::step(table, shown.slot, shown.visit, out)
}

// The buffer that the reading has is ROOM bytes long.
fn reply_reading(table: &[u8], words: &[u8], out: &mut [u8]) -> Checked<usize>
    requires { room_max ≤ length out.old }
    ensures { Leaves
        (or_short
        (held_status table.now (read_asked words.now).slot (read_asked words.now).visit)
        (read_asked words.now).room
        (show_result (visit_in (room_at table.now (read_asked words.now).slot)).reading))
        (show_result (visit_in (room_at table.now (read_asked words.now).slot)).reading) out.old
        out.new result }
{
    let shown = read_asked(words);
    rooms::reading(table, shown.slot, shown.visit, &mut out[..shown.room])
}

fn reply_close(table: &mut [u8], words: &[u8]) -> Checked<()>
    ensures answer { result
        ≡ held_status table.old (shown_asked words.now).slot
        (shown_asked words.now).visit }
    ensures table { table.new
        ≡ closed table.old (shown_asked words.now).slot
        (shown_asked words.now).visit }
{
    let shown = shown_asked(words);
    rooms::close(table, shown.slot, shown.visit)
}

#[tactic(auto, unfolding(crate::specs::Calls::call_status, crate::specs::Calls::call_text, crate::specs::Calls::call_table))]
fn call_in(
    call: Call,
    table: &mut [u8],
    words: &[u8],
    text: &[u8],
    out: &mut [u8],
) -> Checked<usize>
    requires { length out.old ≡ room_max }
    ensures answer { Leaves (call_status call table.old words.now text.now)
        (call_text call table.old words.now text.now) out.old
        out.new result }
    ensures table { table.new
        ≡ call_table call table.old words.now text.now }
{
    match call {
        Call::Clear => silent(rooms::clear(table)),
        Call::Open => reply_open(table, text, out),
        Call::Step => reply_step(table, words, out),
        Call::Reading => reply_reading(table, words, out),
        Call::Close => silent(reply_close(table, words)),
    }
}

// The words of a request say which slot and visit are shown.
pub fn reply_call(
    call: Call,
    table: &mut [u8],
    words: &[u8],
    text: &[u8],
    out: &mut [u8; ROOM],
) -> Checked<usize>
    ensures answer { Leaves (call_status call table.old words.now text.now)
        (call_text call table.old words.now text.now) out.old
        out.new result }
    ensures table { table.new
        ≡ call_table call table.old words.now text.now }
{
    call_in(call, table, words, text, out)
}
