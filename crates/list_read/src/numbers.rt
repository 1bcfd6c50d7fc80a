// The lines that hold a list of numbers.
ghost use Rattle.std.specs.Prelude.{◌≡◌, true, ◌≤◌, length};
ghost use Rattle.sizes.specs.Sizes.{n_max};
ghost use Rattle.scan.specs.Lines.{no_feed, Ready};
ghost use Rattle.lines.specs.Lines.{numbers_of, low_of, any_low_of, high_of, inverse_of, row_of};
ghost use Rattle.line_read.specs.At.{said, onward, line_from};
ghost use Rattle.list_read.specs.Values.{with_value};

use crate::places::rows_of;
use checks::job::{high_check, inverse_check, low_check, row_check};
use checks::result::counted_check;
use faults::Fault;
use jobs::Row;
use reading::Listed;
use scan::At;
use scan::lines::list_at;
use sizes::N;
use text::PLACES;

// n numbers after the key, well spelled: their sizes are not looked at. (An array of them as the answer was tried: a
// row and its right side then cost an eighth more.)
pub(crate) fn numbers(
    text: &[u8],
    from: usize,
    key: &[u8],
    n: usize,
    vals: &mut [i64],
) -> Result<usize, Fault>
    requires { (from ≤ length text.now) × (no_feed key.now ≡ true) × Ready vals.old }
    ensures { with_value vals.new result
        ≡ line_from (said (numbers_of key.now (length vals.old) n) text.now from) (onward text.now from) }
{
    match list_at(text, from, key, vals) {
        Some(list) if list.value == n => Ok(list.next),
        _ => Err(Fault::Spelling),
    }
}

pub fn low_line(text: &[u8], from: usize, n: usize) -> Result<At<[i64; N]>, Fault>
    requires { (from ≤ length text.now) × (n ≤ n_max) }
    ensures { result ≡ line_from (said (low_of n) text.now from) (onward text.now from) }
{
    let mut cells = [0; N];
    let next = numbers(text, from, b"lo=", n, &mut cells)?;
    low_check(n, cells)?;
    Ok(At { value: cells, next })
}

pub fn high_line(text: &[u8], from: usize, n: usize, lo: [i64; N]) -> Result<At<[i64; N]>, Fault>
    requires { (from ≤ length text.now) × (n ≤ n_max) }
    ensures { result ≡ line_from (said (high_of n lo) text.now from) (onward text.now from) }
{
    let mut cells = [0; N];
    let next = numbers(text, from, b"hi=", n, &mut cells)?;
    high_check(n, lo, cells)?;
    Ok(At { value: cells, next })
}

pub fn row_line(text: &[u8], from: usize, n: usize) -> Result<At<[i64; N]>, Fault>
    requires { (from ≤ length text.now) × (n ≤ n_max) }
    ensures { result ≡ line_from (said (row_of n) text.now from) (onward text.now from) }
{
    let mut cells = [0; N];
    let next = numbers(text, from, b"row=", n, &mut cells)?;
    row_check(n, cells)?;
    Ok(At { value: cells, next })
}

// The line of a result, whose length is n.
pub fn any_low_line(text: &[u8], from: usize) -> Result<At<Listed>, Fault>
    requires { from ≤ length text.now }
    ensures { result ≡ line_from (said any_low_of text.now from) (onward text.now from) }
{
    let mut row = [0; N];
    let list = list_at(text, from, b"lo=", &mut row).ok_or(Fault::Spelling)?;
    let count = list.value;
    counted_check(count, row)?;
    Ok(At {
        value: Listed { count, row },
        next: list.next,
    })
}

pub fn inverse_line(text: &[u8], from: usize, n: usize) -> Result<At<[Row; N]>, Fault>
    requires { (from ≤ length text.now) × (n ≤ n_max) }
    ensures { result ≡ line_from (said (inverse_of n) text.now from) (onward text.now from) }
{
    let mut vals = [0; PLACES];
    let next = numbers(text, from, b"inv=", n * n, &mut vals)?;
    let rows = rows_of(&vals, n);
    inverse_check(n, rows)?;
    Ok(At { value: rows, next })
}
