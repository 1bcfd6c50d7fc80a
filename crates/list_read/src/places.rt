// From the numbers of a line to the places of a job.
ghost use Rattle.std.specs.Prelude.{◌≡◌, ◌+◌, ◌≤◌};
ghost use Rattle.sizes.specs.Sizes.{n_max};
ghost use Rattle.text.specs.Lists.{places_max};
ghost use Rattle.lines.specs.Places.{cells, rows_of};

use jobs::Row;
use jobs::zero::zero_row;
use sizes::N;
use text::PLACES;

// n of the numbers, from place `from` on. (copy_from_slice was tried: it costs more for so few.)
pub fn cells_of(vals: &[i64; PLACES], from: usize, n: usize) -> [i64; N]
    requires { (n ≤ n_max) × (from + n ≤ places_max) }
    ensures { result ≡ cells vals.now from n }
{
    let mut row = [0; N];
    for j in 0..n {
        row[j] = vals[from + j];
    }
    row
}

pub fn rows_of(vals: &[i64; PLACES], n: usize) -> [Row; N]
    requires { n ≤ n_max }
    ensures { result ≡ rows_of vals.now n }
{
    let mut rows = [zero_row(); N];
    for i in 0..n {
        rows[i].at = cells_of(vals, i * n, n);
    }
    rows
}
