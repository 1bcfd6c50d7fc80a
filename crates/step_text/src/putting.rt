// The lines of an image and of what it decides, into a lent buffer.
ghost use Rattle.std.specs.Prelude.{◌≤◌};
ghost use Rattle.sizes.specs.Sizes.{text_max};
ghost use Rattle.writing.specs.Wrote.{Wrote, line};
ghost use Rattle.step_text.specs.Lines.{move_text, image_lines, move_lines, EndsFit};

use digits::LONG;
use jobs::Ends;
use one_step::Decided;
use step::Move;
use writing::{put_row_line, put_word_line};

pub fn put_image(buf: &mut [u8], at: usize, n: usize, k: Ends) -> usize
    requires ends_fit { EndsFit n k }
    requires at_le_text_max { at ≤ text_max }
    ensures { Wrote buf.old buf.new at result (image_lines n k) }
{
    let lo = k.lo;
    let hi = k.hi;
    let next = put_row_line(buf, at, b"klo=", lo, n, LONG);
    put_row_line(buf, next, b"khi=", hi, n, LONG)
}

fn put_word(buf: &mut [u8], at: usize, what: Move) -> usize
    requires { at ≤ text_max }
    ensures { Wrote buf.old buf.new at result (line (move_text what)) }
{
    match what {
        Move::None => put_word_line(buf, at, b"verdict=", b"none"),
        Move::Unique => put_word_line(buf, at, b"verdict=", b"unique"),
        Move::Stalled => put_word_line(buf, at, b"verdict=", b"stalled"),
        Move::Next => put_word_line(buf, at, b"verdict=", b"next"),
    }
}

pub fn put_move(buf: &mut [u8], at: usize, n: usize, d: Decided) -> usize
    requires ends_fit { EndsFit n d.ends }
    requires at_le_text_max { at ≤ text_max }
    ensures { Wrote buf.old buf.new at result (move_lines n d) }
{
    let what = d.what;
    let ends = d.ends;
    let lo = ends.lo;
    let hi = ends.hi;
    let a = put_word(buf, at, what);
    let b = put_row_line(buf, a, b"lo=", lo, n, LONG);
    put_row_line(buf, b, b"hi=", hi, n, LONG)
}
