// Between a job's values and those of a step: a box as ends and as sides, the inverse as rows.
ghost use Rattle.std.specs.Prelude.{◌≡◌, ◌≤◌, pos, replicate};
ghost use Rattle.sizes.specs.Sizes.{n_max};
ghost use Rattle.lists.specs.Loops.{tab};
ghost use Rattle.jobs.specs.Places.{row_at};
ghost use Rattle.step.specs.Values.{box_of, ends_of};

use intervals::{Interval, ZERO};
use jobs::{Ends, Row};
use lists::filled;
use sizes::N;

pub fn box_of(e: Ends, n: usize) -> [Interval; N]
    requires { n ≤ n_max }
    ensures { result ≡ box_of n e }
{
    filled(
        ZERO,
        n,
        |k| Interval {
            lo: e.lo[k],
            hi: e.hi[k],
        },
    )
}

pub fn ends_of(x: [Interval; N], n: usize) -> Ends
    requires { n ≤ n_max }
    ensures { result ≡ ends_of n x }
{
    Ends {
        lo: filled(0, n, |k| x[k].lo),
        hi: filled(0, n, |k| x[k].hi),
    }
}

// The rows of a matrix, as an array of rows. (For `lists::filled` the proof did not find what a closure that makes an
// array made.)
#[tactic(auto, using(lists::proofs::Fills::fills))]
pub fn matrix(rows: [Row; N], n: usize) -> [[i64; N]; N]
    requires { n ≤ n_max }
    ensures { result ≡ tab n_max n (replicate n_max (pos 0)) (row_at rows) }
{
    let mut c = [[0; N]; N];
    for i in 0..n {
        c[i] = rows[i].at;
    }
    c
}
