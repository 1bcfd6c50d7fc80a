// An image and what it decides as lines, from a job text or from values. A fault is returned and writes nowhere.
#![tactic(auto)]

pub mod putting;

ghost use Rattle.std.specs.Prelude.{◌≤◌, ◌≡◌, length, take, Ok};
ghost use Rattle.sizes.specs.Sizes.{text_max};
ghost use Rattle.faults.specs.Answer.{Leaves};
ghost use Rattle.one_step.specs.OneStep.{image_status, decide_status};
ghost use Rattle.step_text.specs.Lines.{image_lines, move_lines, step_lines, EndsFit};
ghost use Rattle.step_text.specs.Texts.{image_text, step_text_of, decide_text};
ghost use Rattle.step_text.specs.Texts.{own_status, own_image, own_step, box_status, box_image};

use faults::Checked;
use job_read::read_job;
use jobs::{Ends, Job};
use one_step::Decided;
use putting::{put_image, put_move};
use sizes::TEXT;
use writing::put_whole;

// The first bytes of a buffer of a text's size, whole or not at all.
fn hand_over(text: &[u8], len: usize, out: &mut [u8]) -> Checked<usize>
    requires text_len { length text.now ≡ text_max }
    requires len_le_text_max { len ≤ text_max }
    ensures { Leaves (Ok tt) (take len text.now) out.old out.new result }
{
    put_whole(&text[..len], out)
}

// (This and the next two stay apart: one for all would be handed what fills the buffer, a closure with its contract.)
fn image_lines(n: usize, k: Ends, out: &mut [u8]) -> Checked<usize>
    requires { EndsFit n k }
    ensures { Leaves (Ok tt) (image_lines n k) out.old out.new result }
{
    let mut text = [0u8; TEXT];
    let len = put_image(&mut text, 0, n, k);
    hand_over(&text, len, out)
}

fn move_lines(n: usize, d: Decided, out: &mut [u8]) -> Checked<usize>
    requires { EndsFit n d.ends }
    ensures { Leaves (Ok tt) (move_lines n d) out.old out.new result }
{
    let mut text = [0u8; TEXT];
    let len = put_move(&mut text, 0, n, d);
    hand_over(&text, len, out)
}

fn step_lines(n: usize, k: Ends, d: Decided, out: &mut [u8]) -> Checked<usize>
    requires ends_fit { EndsFit n k }
    requires ends_fit_2 { EndsFit n d.ends }
    ensures { Leaves (Ok tt) (step_lines n k d) out.old out.new result }
{
    let mut text = [0u8; TEXT];
    let at = put_image(&mut text, 0, n, k);
    let len = put_move(&mut text, at, n, d);
    hand_over(&text, len, out)
}

fn write_image(j: Job, x: Ends, out: &mut [u8]) -> Checked<usize>
    ensures { Leaves (image_status j x) (image_text j x) out.old out.new result }
{
    image_lines(j.head.n, one_step::image(j, x)?, out)
}

fn write_step(j: Job, x: Ends, out: &mut [u8]) -> Checked<usize>
    ensures { Leaves (image_status j x) (step_text_of j x) out.old out.new result }
{
    let k = one_step::image(j, x)?;
    let d = one_step::decide(j.head.n, x, k)?;
    step_lines(j.head.n, k, d, out)
}

// K of a job text and a box.
pub fn image_in(text: &[u8], x: Ends, out: &mut [u8]) -> Checked<usize>
    ensures { Leaves (box_status text.now x) (box_image text.now x) out.old
        out.new result }
{
    write_image(read_job(text)?, x, out)
}

// K of a job text's own starting box.
pub fn image(text: &[u8], out: &mut [u8]) -> Checked<usize>
    ensures { Leaves (own_status text.now) (own_image text.now) out.old
        out.new result }
{
    let j = read_job(text)?;
    write_image(j, j.ends, out)
}

// The same, and what it decides.
pub fn step(text: &[u8], out: &mut [u8]) -> Checked<usize>
    ensures { Leaves (own_status text.now) (own_step text.now) out.old
        out.new result }
{
    let j = read_job(text)?;
    write_step(j, j.ends, out)
}

// What X and K decide.
pub fn decide(n: usize, x: Ends, k: Ends, out: &mut [u8]) -> Checked<usize>
    ensures { Leaves (decide_status n x k) (decide_text n x k) out.old out.new result }
{
    move_lines(n, one_step::decide(n, x, k)?, out)
}
