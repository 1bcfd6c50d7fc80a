// What a request is answered with, and how an answer is put: a line with its length, then its bytes.
#![tactic(auto)]

mod calls;
mod parts;

ghost use Rattle.std.specs.Prelude.{◌≡◌, ◌+◌, ◌≤◌, ◌<◌, length};
ghost use Rattle.writing.specs.Wrote.{place_max, Wrote};
ghost use Rattle.faults.specs.Answer.{Leaves};
ghost use Rattle.desk.specs.Desk.{job_status, job_text};
ghost use Rattle.step_text.specs.Texts.{box_status, box_image};
ghost use Rattle.answers.specs.Answers.{box_asked, told_asked, DeepAsked, told_status, told_text};
ghost use Rattle.answers.specs.Answers.{status_of, text_of};
ghost use Rattle.answers.specs.Answers.{room_max, fault_bytes, line_max, Tells, Puts};

use crate::parts::hand_over;
use arguments::words::first_word;
use arguments::{Deep, Told, box_of, deep_of, told_of};
pub use calls::reply_call;
use faults::{Checked, Refusal};
use jobs::Ends;
use jobs::zero::zero_ends;
use parts_end::end_job;
use requests::Op;
use sizes::TEXT;
use writing::{put_bytes, put_count_line};

// Bytes that every answer fits in.
pub const ROOM: usize = TEXT;

// The box of `image LO HI`.
#[tactic(auto, unfolding(crate::specs::Answers::box_asked))]
fn box_asked(words: &[u8]) -> Ends
    ensures { result ≡ box_asked words.now }
{
    let (_, asked) = first_word(words);
    box_of(asked).unwrap_or(zero_ends())
}

// What `decide N LO HI KLO KHI` is told.
#[tactic(auto, unfolding(crate::specs::Answers::told_asked))]
fn told_asked(words: &[u8]) -> Told
    ensures { result ≡ told_asked words.now }
{
    let (_, asked) = first_word(words);
    told_of(asked).unwrap_or(Told {
        n: 0,
        x: zero_ends(),
        k: zero_ends(),
    })
}

// What `halve DEPTH ROOM` is told.
#[tactic(auto, using(crate::proofs::Asked::asked_few))]
pub fn deep_asked(words: &[u8]) -> Deep
    ensures { DeepAsked result words.now }
{
    let (_, asked) = first_word(words);
    deep_of(asked).unwrap_or(Deep { depth: 0, room: 0 })
}

fn reply_image(words: &[u8], text: &[u8], out: &mut [u8]) -> Checked<usize>
    ensures { Leaves (box_status text.now (box_asked words.now))
        (box_image text.now (box_asked words.now)) out.old out.new result }
{
    step_text::image_in(text, box_asked(words), out)
}

#[tactic(auto, unfolding(crate::specs::Answers::told_status, crate::specs::Answers::told_text))]
fn reply_decide(words: &[u8], out: &mut [u8]) -> Checked<usize>
    ensures { Leaves (told_status words.now) (told_text words.now) out.old
        out.new result }
{
    let told = told_asked(words);
    step_text::decide(told.n, told.x, told.k, out)
}

// `parts L1,L2,..` answers as `job` does.
fn reply_parts(words: &[u8], text: &[u8], out: &mut [u8]) -> Checked<usize>
    ensures { Leaves (job_status text.now) (job_text text.now) out.old
        out.new result }
{
    let (_, lengths) = first_word(words);
    let p = hand_over(lengths, text);
    end_job(p, out)
}

// The words of a request say what is asked, with its arguments.
#[tactic(auto, unfolding(crate::specs::Answers::status_of, crate::specs::Answers::text_of))]
pub fn reply(op: Op, words: &[u8], text: &[u8], out: &mut [u8]) -> Checked<usize>
    ensures { Leaves (status_of op words.now text.now)
        (text_of op words.now text.now) out.old out.new result }
{
    match op {
        Op::Solve => desk::solve(text, out),
        Op::Job => desk::rewrite_job(text, out),
        Op::Parts => reply_parts(words, text, out),
        Op::Result => desk::rewrite_result(text, out),
        Op::Image => step_text::image(text, out),
        Op::ImageIn => reply_image(words, text, out),
        Op::Decide => reply_decide(words, out),
    }
}

#[tactic(auto, unfolding(crate::specs::Answers::fault_bytes))]
fn put_fault(out: &mut [u8], refusal: Refusal) -> usize
    ensures { Wrote out.old out.new 0 result (fault_bytes refusal) }
{
    let a = put_count_line(out, 0, b"fault=", u64::from(refusal.fault));
    put_count_line(out, a, b"line=", refusal.line)
}

fn tell_in(a: Checked<usize>, out: &mut [u8]) -> usize
    requires { length out.old ≡ room_max }
    ensures { Tells a out.old out.new result }
{
    match a {
        Ok(len) => len.min(out.len()),
        Err(refusal) => put_fault(out, refusal),
    }
}

// How many bytes of the buffer tell the answer that stands in it: a text as it is, a fault by two lines.
pub fn tell(a: Checked<usize>, out: &mut [u8; ROOM]) -> usize
    ensures { Tells a out.old out.new result }
{
    tell_in(a, out)
}

// The answer's length and LF, then its bytes.
pub fn put_answer(out: &mut [u8], at: usize, answer: &[u8]) -> usize
    requires { at + line_max + length answer.now ≤ place_max }
    ensures { Puts out.old out.new at result answer.now }
{
    let next = put_count_line(out, at, b"", answer.len() as u64);
    put_bytes(out, next, answer)
}
