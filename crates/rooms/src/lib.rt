// The five calls on the table of eight rooms. Any bytes and numbers are taken; a call that is refused changes nothing.
#![tactic(auto)]

mod table;

ghost use Rattle.std.specs.Prelude.{◌≡◌, ◌+◌, ◌≤◌, ◌<◌, length, eqb, unwrap_or, IfSome, IfOk};
ghost use Rattle.std.proofs.lemmas.List.Edits.{sets};
ghost use Rattle.faults.specs.Checked.{status_of};
ghost use Rattle.faults.specs.Answer.{Leaves};
ghost use Rattle.checks.specs.CheckResult.{check_result};
ghost use Rattle.result_form.specs.ResultShows.{show_result};
ghost use Rattle.cells.specs.Cells.{cell};
ghost use Rattle.room_form.specs.Table.{rooms_max, job_most, reading_most, table_size, visit_in, room_at};
ghost use Rattle.room_form.specs.Calls.{clear_status, cleared, lowest_free, open_status, open_answer, next_visit};
ghost use Rattle.rooms.specs.Held.{Held};
ghost use Rattle.room_form.specs.Calls.{with_visitor, opened, held_status, after_step, stepped, closed};

use crate::table::{is_free, is_whole, room_at};
use cells::{number_at, put_number, put_text, wipe};
use faults::{Checked, Fault, refused};
use job_read::read_job;
use jobs::Result;
use result_write::write_ready;
use room_form::{Opened, Room, Visit};
use sizes::VISIT;
use visits::{first_reading, is_finished, next_reading};

// The sizes of docs/ROOMS.md: each text stands behind its length, a number of four bytes.
const ROOMS: usize = 8;

const READING: usize = 252;

const JOB: usize = 2044;

const JOB_FROM: usize = 4 + READING;

const SLOT: usize = JOB_FROM + 4 + JOB;

const HEAD: usize = 4;

pub const TABLE: usize = HEAD + ROOMS * SLOT;

// All rooms are free, and visits count from 1 again.
pub fn clear(table: &mut [u8]) -> Checked<()>
    ensures answer { result ≡ clear_status table.old }
    ensures table { table.new ≡ cleared table.old }
{
    if table.len() < TABLE {
        return refused(Fault::Table, 0);
    }
    wipe(table, 0, TABLE);
    Ok(())
}

fn lowest_free(table: &[u8]) -> Option<usize>
    requires { table_size ≤ length table.now }
    ensures slot { IfSome result (λ k. k < rooms_max) }
    ensures lowest { unwrap_or result rooms_max ≡ lowest_free table.now }
{
    for k in 0..ROOMS {
        if is_free(table, k) {
            return Some(k);
        }
    }
    None
}

// A reading and its length, from this place on.
fn put_reading(table: &mut [u8], at: usize, r: Result) -> usize
    requires { (at + 4 + reading_most ≤ length table.old) × ((at ≤ table_size) × (check_result r ≡ Ok tt)) }
    ensures { table.new ≡ sets table.old at (cell (show_result r)) }
{
    let from = at + 4;
    let len = write_ready(r, &mut table[from..from + READING]).unwrap_or(0);
    put_number(table, at, len as u64)
}

// A visitor's number, reading and job text in the table.
fn put_visitor(table: &mut [u8], slot: usize, visit: u64, r: Result, text: &[u8]) -> usize
    requires table_size_in_bounds { (table_size ≤ length table.old) × (slot < rooms_max) }
    requires r_value { (check_result r ≡ Ok tt) × (length text.now ≤ job_most) }
    ensures { table.new ≡ with_visitor table.old slot visit (show_result r)
        text.now }
{
    let from = HEAD + slot * SLOT;
    put_number(table, 0, visit);
    put_reading(table, from, r);
    put_text(table, from + JOB_FROM, text)
}

// A job text takes the lowest free slot.
pub fn open(table: &mut [u8], text: &[u8]) -> Checked<Opened>
    ensures answer { result ≡ open_answer (open_status table.old text.now)
        (lowest_free table.old) (next_visit table.old) }
    ensures table { table.new ≡ opened table.old text.now }
{
    if !is_whole(table) {
        return refused(Fault::Table, 0);
    }
    let job = read_job(text)?;
    let Some(slot) = lowest_free(table) else {
        return refused(Fault::Full, 0);
    };
    let last = number_at(table, 0);
    if VISIT <= last {
        return refused(Fault::Visits, 0);
    }
    let visit = last + 1;
    put_visitor(table, slot, visit, first_reading(job, visit), text);
    Ok(Opened { slot, visit })
}

fn is_numbered(held: Visit, visit: u64) -> bool
    ensures { result ≡ eqb held.reading.visit visit }
{
    held.reading.visit == visit
}

// The visit that a slot holds: 16, then 15.
fn held(table: &[u8], slot: u64, visit: u64) -> Checked<Visit>
    ensures status { status_of result ≡ held_status table.now slot visit }
    ensures visit { IfOk result (Held table.now slot) }
{
    if !is_whole(table) {
        return refused(Fault::Table, 0);
    }
    if ROOMS as u64 <= slot {
        return refused(Fault::NotOpen, 0);
    }
    match room_at(table, slot as usize) {
        Room::Taken(held) if is_numbered(held, visit) => Ok(held),
        _ => refused(Fault::NotOpen, 0),
    }
}

// One step of a visit's job, and the reading after it.
pub fn step(table: &mut [u8], slot: u64, visit: u64, out: &mut [u8]) -> Checked<usize>
    ensures answer { Leaves (held_status table.old slot visit)
        (show_result (after_step table.old slot)) out.old out.new result }
    ensures table { table.new
        ≡ stepped table.old slot visit (length out.old) }
{
    let Visit { job, reading } = held(table, slot, visit)?;
    let next = next_reading(job, reading);
    let len = write_ready(next, out)?;
    if !is_finished(reading.verdict, reading.steps, job.steps) {
        put_reading(table, HEAD + slot as usize * SLOT, next);
    }
    Ok(len)
}

// Where a visit's job stands.
pub fn reading(table: &[u8], slot: u64, visit: u64, out: &mut [u8]) -> Checked<usize>
    ensures { Leaves (held_status table.now slot visit)
        (show_result (visit_in (room_at table.now slot)).reading) out.old out.new result }
{
    let held = held(table, slot, visit)?;
    write_ready(held.reading, out)
}

// The slot is free.
pub fn close(table: &mut [u8], slot: u64, visit: u64) -> Checked<()>
    ensures answer { result ≡ held_status table.old slot visit }
    ensures table { table.new ≡ closed table.old slot visit }
{
    held(table, slot, visit)?;
    wipe(table, HEAD + slot as usize * SLOT, SLOT);
    Ok(())
}
