// Writing into a lent buffer, byte by byte. A byte past the buffer's end is counted and not written, so that the same
// functions measure a text.
#![tactic(auto)]

ghost use Rattle.std.specs.Prelude.{[], ◌∷◌, ◌++◌, ◌≡◌, ◌+◌, ◌*◌, ◌≤◌, ◌<◌, ◌^◌, length, map, nat_abs};
ghost use Rattle.faults.specs.Answer.{Leaves};
ghost use Rattle.digits.specs.Number.{digits_max, long_max};
ghost use Rattle.digits.specs.Show.{show_magnitude, show_signed};
ghost use Rattle.text.specs.Lists.{after_commas, show_all, Below};
ghost use Rattle.reading.specs.NumberLines.{placed};
ghost use Rattle.writing.specs.Wrote.{place_max, Wrote, line, RowFits};

use faults::{Checked, Fault, refused};
use sizes::N;

// One byte at its place, if there is one.
pub fn put_byte(buf: &mut [u8], at: usize, b: u8) -> usize
    requires { at < place_max }
    ensures { Wrote buf.old buf.new at result (b ∷ []) }
{
    if at < buf.len() {
        buf[at] = b;
    }
    at + 1
}

// Some bytes.
pub fn put_bytes(buf: &mut [u8], at: usize, bs: &[u8]) -> usize
    requires { at + length bs.now ≤ place_max }
    ensures { Wrote buf.old buf.new at result bs.now }
{
    let mut p = at;
    for b in bs {
        p = put_byte(buf, p, *b);
    }
    p
}

// How many digits m has, at most k. A tenth of m is compared, so that the bound never passes m.
fn digits_of(m: u64, k: usize) -> usize
    ensures { result ≡ length (show_magnitude k m) }
{
    let tenth = m / 10;
    let mut bound: u64 = 1;
    for i in 0..k {
        if tenth < bound {
            return i + 1;
        }
        bound *= 10;
    }
    k
}

// The digits of m, at most k, from the last to the first.
pub fn put_magnitude(buf: &mut [u8], at: usize, m: u64, k: usize) -> usize
    requires { at + k ≤ place_max }
    ensures { Wrote buf.old buf.new at result (show_magnitude k m) }
{
    let end = at + digits_of(m, k);
    let mut left = m;
    for p in (at..end).rev() {
        put_byte(buf, p, b'0' + (left % 10) as u8);
        left /= 10;
    }
    end
}

// A number of at most k digits.
pub fn put_number(buf: &mut [u8], at: usize, v: i64, k: usize) -> usize
    requires { (k ≤ long_max) × (at + k < place_max) × (nat_abs v < 10 ^ k) }
    ensures { Wrote buf.old buf.new at result (show_signed k v) }
{
    let m = digits::abs(v);
    if v < 0 {
        let next = put_byte(buf, at, b'-');
        return put_magnitude(buf, next, m, k);
    }
    put_magnitude(buf, at, m, k)
}

// Numbers of at most k digits each, each after a comma.
fn put_more(buf: &mut [u8], at: usize, xs: &[i64], k: usize) -> usize
    requires { (k ≤ long_max) × (at + (k + 2) * length xs.now ≤ place_max) × Below k xs.now }
    ensures { Wrote buf.old buf.new at result (after_commas (map (show_signed k) xs.now)) }
{
    let mut p = at;
    for v in xs {
        p = put_byte(buf, p, b',');
        p = put_number(buf, p, *v, k);
    }
    p
}

// Numbers of at most k digits each, joined by commas.
pub fn put_list(buf: &mut [u8], at: usize, xs: &[i64], k: usize) -> usize
    requires { (k ≤ long_max) × (at + (k + 2) * (1 + length xs.now) ≤ place_max) × Below k xs.now }
    ensures { Wrote buf.old buf.new at result (show_all k xs.now) }
{
    let Some((first, others)) = xs.split_first() else {
        return at;
    };
    let next = put_number(buf, at, *first, k);
    put_more(buf, next, others, k)
}

// A line: a key, some bytes and LF.
pub fn put_word_line(buf: &mut [u8], at: usize, key: &[u8], word: &[u8]) -> usize
    requires { at + length key.now + length word.now < place_max }
    ensures { Wrote buf.old buf.new at result (line (key.now ++ word.now)) }
{
    let a = put_bytes(buf, at, key);
    let b = put_bytes(buf, a, word);
    put_byte(buf, b, b'\n')
}

// A line: a key, a count and LF.
pub fn put_count_line(buf: &mut [u8], at: usize, key: &[u8], m: u64) -> usize
    requires { at + length key.now + digits_max < place_max }
    ensures { Wrote buf.old buf.new at result
        (line (key.now ++ show_magnitude digits_max m)) }
{
    let a = put_bytes(buf, at, key);
    let b = put_magnitude(buf, a, m, digits::DIGITS);
    put_byte(buf, b, b'\n')
}

// A line: a key, a list of numbers of at most k digits each and LF.
pub fn put_list_line(buf: &mut [u8], at: usize, key: &[u8], xs: &[i64], k: usize) -> usize
    requires { (k ≤ long_max) × (at + length key.now + (k + 2) * (1 + length xs.now) < place_max)
        × Below k xs.now }
    ensures { Wrote buf.old buf.new at result
        (line (key.now ++ show_all k xs.now)) }
{
    let a = put_bytes(buf, at, key);
    let b = put_list(buf, a, xs, k);
    put_byte(buf, b, b'\n')
}

// A line: a key, the first n of a row, of at most k digits each, and LF.
pub fn put_row_line(
    buf: &mut [u8],
    at: usize,
    key: &[u8],
    row: [i64; N],
    n: usize,
    k: usize,
) -> usize
    requires { RowFits at key.now row n k }
    ensures { Wrote buf.old buf.new at result
        (line (key.now ++ show_all k (placed n n row))) }
{
    put_list_line(buf, at, key, &row[..n], k)
}

// A whole text over a lent buffer from its start on, or nothing where it has no room.
pub fn put_whole(text: &[u8], out: &mut [u8]) -> Checked<usize>
    ensures { Leaves (Ok tt) text.now out.old out.new result }
{
    if out.len() < text.len() {
        return refused(Fault::ShortBuffer, 0);
    }
    out[..text.len()].copy_from_slice(text);
    Ok(text.len())
}
