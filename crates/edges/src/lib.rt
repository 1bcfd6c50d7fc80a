// The widest edge of a box, and the two halves that a cut of it leaves.
#![tactic(auto)]

ghost use Rattle.std.specs.Prelude.{◌≡◌, ◌≤◌, ◌<◌};
ghost use Rattle.intervals.specs.Places.{side_at};
ghost use Rattle.slopes.specs.Ranges.{BoxIn};
ghost use Rattle.edges.specs.Edges.{width_i, FitsWidth, wider_of, widest_of, is_wide};
ghost use Rattle.edges.specs.Edges.{low_half, high_half};

use intervals::{Interval, middle};
use sizes::N;

// The narrowest edge that is cut, in marks.
const WIDE: i64 = 2;

#[tactic(auto, unfolding(crate::specs::Edges::width_i))]
fn width(a: Interval) -> i64
    requires { FitsWidth a }
    ensures { result ≡ width_i a }
{
    a.hi - a.lo
}

fn wider(x: [Interval; N], n: usize, i: usize, k: usize) -> usize
    requires x_in { BoxIn n (side_at x) }
    requires live { (i < n) × (k < n) }
    ensures { result ≡ wider_of x i k }
{
    if width(x[k]) < width(x[i]) {
        return i;
    }
    k
}

// (By place: each turn compares two.)
fn widest(x: [Interval; N], n: usize) -> usize
    requires x_in { BoxIn n (side_at x) }
    requires some { 1 ≤ n }
    ensures place { result ≡ widest_of n x }
    ensures live { result < n }
{
    let mut k = 0;
    for i in 0..n {
        k = wider(x, n, i, k);
    }
    k
}

// Is the widest edge wide enough to be cut?
#[tactic(auto, unfolding(crate::specs::Edges::is_wide))]
pub fn is_wide(x: [Interval; N], n: usize) -> bool
    requires x_in { BoxIn n (side_at x) }
    requires some { 1 ≤ n }
    ensures { result ≡ is_wide n x }
{
    WIDE <= width(x[widest(x, n)])
}

#[tactic(auto, unfolding(crate::specs::Edges::low_half))]
pub fn low_half(x: [Interval; N], n: usize) -> [Interval; N]
    requires x_in { BoxIn n (side_at x) }
    requires some { 1 ≤ n }
    ensures { result ≡ low_half n x }
{
    let k = widest(x, n);
    let mut half = x;
    half[k].hi = middle(x[k]);
    half
}

#[tactic(auto, unfolding(crate::specs::Edges::high_half))]
pub fn high_half(x: [Interval; N], n: usize) -> [Interval; N]
    requires x_in { BoxIn n (side_at x) }
    requires some { 1 ≤ n }
    ensures { result ≡ high_half n x }
{
    let k = widest(x, n);
    let mut half = x;
    half[k].lo = middle(x[k]);
    half
}
