// The boxes that halving lists, of a job text and as lines. A listing is longer than any other answer, so that it is
// written in pieces: its head, then box by box.
#![tactic(auto)]

ghost use Rattle.std.specs.Prelude.{◌≤◌, ◌≡◌, pos};
ghost use Rattle.integers.specs.Equal.{eq_ℤ};
ghost use Rattle.writing.specs.Wrote.{Wrote, line};
ghost use Rattle.listing.specs.Lines.{last_max, box_text, head_of, ends_from, entry_lines, all_lines};
ghost use Rattle.listing.specs.Lines.{Piece, EndsIn, EntryIn};
ghost use Rattle.listing.specs.Listing.{Readable, ListsJob, ListsText};

use digits::LONG;
use faults::Checked;
use halving::{LISTED, halve};
use job_read::read_job;
use jobs::Job;
use sizes::N;
use writing::{put_count_line, put_list_line, put_word_line};

// The job's number and n, and how many boxes are listed.
#[derive(Clone, Copy)]
pub struct Listing {
    pub number: u64,
    pub n: usize,
    pub boxes: usize,
}

fn list_job(j: Job, depth: i64, list: &mut [i64]) -> Checked<Listing>
    ensures { ListsJob j depth list.old list.new result }
{
    Ok(Listing {
        number: j.head.number,
        n: j.head.n,
        boxes: halve(j, depth, list)?,
    })
}

// Of a job text. Every text, depth and list is taken: a fault is returned and touches no number of the list.
pub fn list_text(text: &[u8], depth: i64, list: &mut [i64]) -> Checked<Listing>
    ensures { ListsText text.now depth list.old list.new result }
{
    list_job(read_job(text)?, depth, list)
}

// The first piece: whose boxes they are, and how many.
pub fn put_head(buf: &mut [u8], at: usize, l: Listing) -> usize
    requires { at ≤ last_max }
    ensures { Piece buf.old buf.new at result (head_of l) }
{
    let next = put_count_line(buf, at, b"job=", l.number);
    put_count_line(buf, next, b"boxes=", l.boxes as u64)
}

fn says_unique(word: i64) -> bool
    ensures { result ≡ eq_ℤ word (pos 1) }
{
    word == 1
}

fn put_word(buf: &mut [u8], at: usize, unique: bool) -> usize
    requires { at ≤ last_max }
    ensures { Wrote buf.old buf.new at result (line (box_text unique)) }
{
    if unique {
        put_word_line(buf, at, b"box=", b"unique")
    } else {
        put_word_line(buf, at, b"box=", b"open")
    }
}

// A line: a key, and the n numbers of a list from a place on.
fn put_ends(buf: &mut [u8], at: usize, key: &[u8], list: &[i64], from: usize, n: usize) -> usize
    requires { EndsIn at key.now list.now from n }
    ensures { Wrote buf.old buf.new at result
        (line (ends_from key.now list.now from n)) }
{
    put_list_line(buf, at, key, &list[from..from + n], LONG)
}

// Box i of a list, of n unknowns.
pub fn put_box(buf: &mut [u8], at: usize, n: usize, list: &[i64], i: usize) -> usize
    requires entry_in { EntryIn n list.now i }
    requires at_le_last_max { at ≤ last_max }
    ensures { Piece buf.old buf.new at result (entry_lines n list.now i) }
{
    let first = LISTED * i;
    let low = first + 1;
    let high = low + N;
    let next = put_word(buf, at, says_unique(list[first]));
    let last = put_ends(buf, next, b"lo=", list, low, n);
    put_ends(buf, last, b"hi=", list, high, n)
}

// All pieces, as far as there is room: how many bytes they have. (Box by box by its number, as `put_box` takes it from
// whoever writes in pieces.)
pub fn put_all(buf: &mut [u8], l: Listing, list: &[i64]) -> usize
    requires { Readable l list.now }
    ensures { Wrote buf.old buf.new 0 result (all_lines l list.now) }
{
    let mut at = put_head(buf, 0, l);
    for i in 0..l.boxes {
        at = put_box(buf, at, l.n, list, i);
    }
    at
}
