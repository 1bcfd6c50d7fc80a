// Of the bytes at hand, the first of which is a request's first: its line, and the part of its text that is kept.
ghost use Rattle.std.specs.Prelude.{◌≡◌, ◌≤◌, length};
ghost use Rattle.requests.specs.Packets.{header_max, kept_of, passed_of, text_of, look_of, Inside};

use crate::{Named, Request, request_of};
use sizes::TEXT;
use text::piece_end;

// The most bytes of a request's line, its LF included.
pub const HEADER: usize = 4096;

// Of a request more is to come, or its line is none, or it is at hand.
#[derive(Clone, Copy)]
pub enum Seen {
    More,
    Bad,
    Whole(Packet),
}

// The first `words` bytes at hand say what is asked, what is kept of the text stands from..to; behind it `passed` bytes
// are to be passed over.
#[derive(Clone, Copy)]
pub struct Packet {
    pub named: Named,
    pub words: usize,
    pub from: usize,
    pub to: usize,
    pub passed: u64,
}

// How many bytes of a text are kept: of one that is too long, one more than may be.
pub fn kept(length: u64) -> usize
    ensures { result ≡ kept_of length }
{
    length.min(TEXT as u64 + 1) as usize
}

// How many are passed over.
pub fn passed(length: u64) -> u64
    ensures { result ≡ passed_of length }
{
    length - kept(length) as u64
}

// The text begins at `from`, and n bytes are at hand.
#[tactic(auto, unfolding(crate::specs::Packets::text_of))]
fn text_of(request: Request, from: usize, n: usize) -> Seen
    requires from_le_header_max { (from ≤ header_max) × (from ≤ n) }
    requires words_le_from { request.words ≤ from }
    ensures { Inside result (text_of request from n) n }
{
    let length = request.length;
    let to = from + kept(length);
    if n < to {
        return Seen::More;
    }
    Seen::Whole(Packet {
        named: request.named,
        words: request.words,
        from,
        to,
        passed: passed(length),
    })
}

#[tactic(auto, unfolding(crate::specs::Packets::look_of, crate::specs::Packets::look_at, crate::specs::Packets::text_at))]
pub fn look(have: &[u8]) -> Seen
    ensures { Inside result (look_of have.now) (length have.now) }
{
    let end = piece_end(have, 0, b'\n');
    if HEADER <= end {
        return Seen::Bad;
    }
    if have.len() <= end {
        return Seen::More;
    }
    match request_of(&have[..end]) {
        Some(request) => text_of(request, end + 1, have.len()),
        None => Seen::Bad,
    }
}
