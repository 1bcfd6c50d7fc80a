// The lines of matrices: the inverse, and a row with its right side.
ghost use Rattle.std.specs.Prelude.{◌≡◌, ◌*◌, ◌≤◌, pos};
ghost use Rattle.sizes.specs.Sizes.{n_max};
ghost use Rattle.lists.specs.Loops.{tab};
ghost use Rattle.text.specs.Lists.{places_max};
ghost use Rattle.writing.specs.Wrote.{Wrote, line};
ghost use Rattle.lines.specs.Texts.{entry_of, inverse_text, sided_text};
ghost use Rattle.job_put.specs.Parts.{SidedFits, MatrixFits};

use digits::DIGITS;
use jobs::Row;
use sizes::N;
use text::PLACES;
use writing::{put_byte, put_bytes, put_list, put_list_line, put_number};

// The n rows of n, one after the other.
fn entries(rows: [Row; N], n: usize) -> [i64; PLACES]
    requires { (1 ≤ n) × (n ≤ n_max) }
    ensures { result ≡ tab places_max (n * n) (pos 0) (entry_of rows n) }
{
    let mut all = [0; PLACES];
    // k gives the row and the column, and is not the index of `all` alone.
    for k in 0..n * n {
        all[k] = rows[k / n].at[k % n];
    }
    all
}

pub fn put_inverse_line(buf: &mut [u8], at: usize, inv: [Row; N], n: usize) -> usize
    requires { MatrixFits at inv n }
    ensures { Wrote buf.old buf.new at result (line (inverse_text n inv)) }
{
    let all = entries(inv, n);
    put_list_line(buf, at, b"inv=", &all[..n * n], DIGITS)
}

pub fn put_sided_line(buf: &mut [u8], at: usize, row: [i64; N], n: usize, right: i64) -> usize
    requires { SidedFits at row n right }
    ensures { Wrote buf.old buf.new at result (line (sided_text n row right)) }
{
    let a = put_bytes(buf, at, b"row=");
    let b = put_list(buf, a, &row[..n], DIGITS);
    let c = put_byte(buf, b, b',');
    let d = put_number(buf, c, right, DIGITS);
    put_byte(buf, d, b'\n')
}
