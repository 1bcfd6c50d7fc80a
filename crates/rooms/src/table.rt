// The form of the table: what stands in its slots.
ghost use Rattle.std.specs.Prelude.{◌≡◌, ◌≤◌, ◌<◌, length};
ghost use Rattle.room_form.specs.Table.{rooms_max, slot_size, table_size, is_visit, held_by, room_of, room_at};
ghost use Rattle.room_form.specs.Table.{is_whole, whole};
ghost use Rattle.room_form.specs.Calls.{is_free};

use crate::{HEAD, JOB, JOB_FROM, READING, ROOMS, SLOT, TABLE};
use cells::number_at;
use faults::Checked;
use job_read::read_job;
use jobs::{Job, Result};
use result_read::read_result;
use room_form::{Room, Visit};
use sizes::VISIT;

// Whether a right job and a right reading belong together.
#[tactic(auto, unfolding(room_form::specs::Table::is_visit))]
fn is_visit(last: u64, j: Job, r: Result) -> bool
    ensures { result ≡ is_visit last j r }
{
    r.number == j.head.number
        && r.n == j.head.n
        && 1 <= r.visit
        && r.visit <= last
        && r.steps <= j.steps
}

#[tactic(auto, unfolding(room_form::specs::Table::held_by))]
fn held_by(last: u64, j: Checked<Job>, r: Checked<Result>) -> Room
    ensures { result ≡ held_by last j r }
{
    match (j, r) {
        (Ok(job), Ok(reading)) if is_visit(last, job, reading) => {
            Room::Taken(Visit { job, reading })
        }
        _ => Room::Broken,
    }
}

// A slot, where the last visit number is this one.
#[tactic(auto, unfolding(room_form::specs::Table::room_of))]
fn room_of(slot: &[u8], last: u64) -> Room
    requires { length slot.now ≡ slot_size }
    ensures { result ≡ room_of last slot.now }
{
    let job = number_at(slot, JOB_FROM) as usize;
    if job == 0 {
        return Room::Free;
    }
    let reading = number_at(slot, 0) as usize;
    if READING < reading || JOB < job {
        return Room::Broken;
    }
    let j = read_job(&slot[JOB_FROM + 4..JOB_FROM + 4 + job]);
    let r = read_result(&slot[4..4 + reading]);
    held_by(last, j, r)
}

pub fn room_at(table: &[u8], slot: usize) -> Room
    requires { (table_size ≤ length table.now) × (slot < rooms_max) }
    ensures { result ≡ room_at table.now slot }
{
    let from = HEAD + slot * SLOT;
    let last = number_at(table, 0);
    room_of(&table[from..from + SLOT], last)
}

// Whether a slot is free: the length of its job text tells.
pub fn is_free(table: &[u8], slot: usize) -> bool
    requires { (table_size ≤ length table.now) × (slot < rooms_max) }
    ensures { result ≡ is_free (room_at table.now slot) }
{
    number_at(table, HEAD + slot * SLOT + JOB_FROM) == 0
}

fn stands(room: Room) -> bool
    ensures { result ≡ is_whole room }
{
    !matches!(room, Room::Broken)
}

// Whether the bytes are of the form.
pub fn is_whole(table: &[u8]) -> bool
    ensures { result ≡ whole table.now }
{
    if table.len() < TABLE || VISIT < number_at(table, 0) {
        return false;
    }
    for k in 0..ROOMS {
        if !stands(room_at(table, k)) {
            return false;
        }
    }
    true
}
