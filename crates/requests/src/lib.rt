// Many requests in one run, as bytes: a request is a line `OP ARGS.. LENGTH` and LF, then LENGTH bytes of text. What is
// asked stands before the line's last space, the length of the text behind it.
#![tactic(auto)]

pub mod packets;

ghost use Rattle.std.specs.Prelude.{◌≡◌, ◌≢◌, ℕ, ◌<◌, length, slice_index, EachIndex, MatchOption};
ghost use Rattle.arguments.specs.Words.{space};
ghost use Rattle.requests.specs.Requests.{plain_call, plain_of, argued_call, argued_of, operation_of};
ghost use Rattle.requests.specs.Requests.{takes, request_of};

use arguments::words::first_word;
use arguments::{are_lengths, box_of, count_of, deep_of, read_of, shown_of, told_of};
use text::same_bytes;

#[derive(Clone, Copy)]
pub enum Op {
    Solve,
    Job,
    Parts,
    Result,
    Image,
    ImageIn,
    Decide,
}

// What is asked of the table of rooms.
#[derive(Clone, Copy)]
pub enum Call {
    Clear,
    Open,
    Step,
    Reading,
    Close,
}

// `halve` lists boxes, which no answer of the others is long enough for.
#[derive(Clone, Copy)]
pub enum Named {
    Is(Op),
    Lists,
    Calls(Call),
}

// What is asked, how many bytes its text has, and how many of the line's say what is asked.
#[derive(Clone, Copy)]
pub struct Request {
    pub named: Named,
    pub length: u64,
    pub words: usize,
}

// (A `match` on the words makes a goal of each byte: tried, and the proof did not close.)
#[tactic(auto, unfolding(crate::specs::Requests::plain_call))]
fn plain_call(words: &[u8]) -> Option<Named>
    ensures { result ≡ plain_call words.now }
{
    if same_bytes(words, b"clear") {
        return Some(Named::Calls(Call::Clear));
    }
    if same_bytes(words, b"open") {
        return Some(Named::Calls(Call::Open));
    }
    None
}

// The operations without arguments.
#[tactic(auto, unfolding(crate::specs::Requests::plain_of))]
fn plain(words: &[u8]) -> Option<Named>
    ensures { result ≡ plain_of words.now }
{
    if same_bytes(words, b"solve") {
        return Some(Named::Is(Op::Solve));
    }
    if same_bytes(words, b"job") {
        return Some(Named::Is(Op::Job));
    }
    if same_bytes(words, b"result") {
        return Some(Named::Is(Op::Result));
    }
    if same_bytes(words, b"image") {
        return Some(Named::Is(Op::Image));
    }
    plain_call(words)
}

#[tactic(auto, unfolding(crate::specs::Requests::argued_call, crate::specs::Requests::named_if))]
fn argued_call(first: &[u8], rest: &[u8]) -> Option<Named>
    ensures { result ≡ argued_call first.now rest.now }
{
    if same_bytes(first, b"step") {
        return shown_of(rest).map(|_| Named::Calls(Call::Step));
    }
    if same_bytes(first, b"reading") {
        return read_of(rest).map(|_| Named::Calls(Call::Reading));
    }
    if same_bytes(first, b"close") {
        return shown_of(rest).map(|_| Named::Calls(Call::Close));
    }
    None
}

// Those with arguments, which stand behind the first word.
#[tactic(auto, unfolding(crate::specs::Requests::argued_of, crate::specs::Requests::named_if))]
fn argued(first: &[u8], rest: &[u8]) -> Option<Named>
    ensures { result ≡ argued_of first.now rest.now }
{
    if same_bytes(first, b"parts") {
        return are_lengths(rest).then_some(Named::Is(Op::Parts));
    }
    if same_bytes(first, b"image") {
        return box_of(rest).map(|_| Named::Is(Op::ImageIn));
    }
    if same_bytes(first, b"decide") {
        return told_of(rest).map(|_| Named::Is(Op::Decide));
    }
    if same_bytes(first, b"halve") {
        return deep_of(rest).map(|_| Named::Lists);
    }
    argued_call(first, rest)
}

// The one table of the operations.
#[tactic(auto, unfolding(crate::specs::Requests::operation_of, crate::specs::Requests::or_named))]
pub fn operation(words: &[u8]) -> Option<Named>
    ensures { result ≡ operation_of words.now }
{
    plain(words).or_else(|| {
        let (first, rest) = first_word(words);
        argued(first, rest)
    })
}

fn last_space(line: &[u8]) -> Option<usize>
    ensures { MatchOption result (EachIndex line.now (λ k. slice_index line.now k ≢ space))
        (λ i. (i < length line.now) × (slice_index line.now i ≡ space)
        × ((k : ℕ) → i < k → k < length line.now → slice_index line.now k ≢ space)) }
{
    line.iter().rposition(|b| *b == b' ')
}

// `decide` has no text, and of the calls on the table `open` alone has one.
#[tactic(auto, unfolding(crate::specs::Requests::takes, crate::specs::Requests::takes_text, crate::specs::Requests::call_takes))]
fn takes(named: Named, length: u64) -> bool
    ensures { result ≡ takes named length }
{
    match named {
        Named::Is(Op::Decide) => length == 0,
        Named::Calls(Call::Clear | Call::Step | Call::Reading | Call::Close) => length == 0,
        _ => true,
    }
}

// The request of a line without its LF.
pub fn request_of(line: &[u8]) -> Option<Request>
    ensures { result ≡ request_of line.now }
{
    let words = last_space(line)?;
    let named = operation(&line[..words])?;
    let length = count_of(&line[words + 1..])?;
    if !takes(named, length) {
        return None;
    }
    Some(Request {
        named,
        length,
        words,
    })
}
