// Intervals of marks: exact sums and products, one outward rounding, and the questions that a step asks of two
// intervals.
#![tactic(auto)]

ghost use Rattle.std.specs.Prelude.{◌≡◌};
ghost use Rattle.sizes.specs.Bounds.{up_max};
ghost use Rattle.integers.specs.Rounding.{floor_by, ceil_by};
ghost use Rattle.integers.specs.Ranges.{Within};
ghost use Rattle.intervals.specs.Interval.{mark, point_i, add_i, neg_i, scale_i, wide_i, out_i};
ghost use Rattle.intervals.specs.Interval.{mul_i, mid_i, cut_i, meets_i, inside_i};
ghost use Rattle.intervals.specs.Ranges.{FitsAdd, FitsNeg, FitsScale, FitsMul, FitsAround, FitsTimes, FitsMid};

use sizes::MARK;

// MARK is 2 to the power 16.
const PLACES: u32 = 16;

// One short of a mark.
const REST: i64 = MARK - 1;

// [lo, hi], in marks.
#[derive(Clone, Copy, PartialEq, Eq)]
pub struct Interval {
    pub lo: i64,
    pub hi: i64,
}

// [0, 0]: an empty sum, and what stands past the live places.
pub const ZERO: Interval = Interval { lo: 0, hi: 0 };

// The shift rounds down, on negative numbers too.
#[tactic(auto, using(crate::proofs::Division::shifts))]
pub fn floor_div(x: i64) -> i64
    ensures { result ≡ floor_by mark x }
{
    x >> PLACES
}

// What is left over of x and one short of a mark make a mark more; a whole x stays below the next one.
pub fn ceil_div(x: i64) -> i64
    requires { Within x up_max }
    ensures { result ≡ ceil_by mark x }
{
    floor_div(x + REST)
}

pub fn point(c: i64) -> Interval
    ensures { result ≡ point_i c }
{
    Interval { lo: c, hi: c }
}

#[tactic(auto, unfolding(crate::specs::Interval::add_i))]
pub fn add(a: Interval, b: Interval) -> Interval
    requires { FitsAdd a b }
    ensures { result ≡ add_i a b }
{
    Interval {
        lo: a.lo + b.lo,
        hi: a.hi + b.hi,
    }
}

#[tactic(auto, unfolding(crate::specs::Interval::neg_i))]
pub fn negated(a: Interval) -> Interval
    requires { FitsNeg a }
    ensures { result ≡ neg_i a }
{
    Interval {
        lo: -a.hi,
        hi: -a.lo,
    }
}

#[tactic(auto, unfolding(crate::specs::Interval::scale_i))]
pub fn scaled(e: u8, a: Interval) -> Interval
    requires { FitsScale e a }
    ensures { result ≡ scale_i e a }
{
    let k = i64::from(e);
    Interval {
        lo: k * a.lo,
        hi: k * a.hi,
    }
}

// The exact product.
pub fn mul_wide(a: Interval, b: Interval) -> Interval
    requires { FitsMul a b }
    ensures { result ≡ wide_i a b }
{
    let p = a.lo * b.lo;
    let q = a.lo * b.hi;
    let r = a.hi * b.lo;
    let s = a.hi * b.hi;
    Interval {
        lo: p.min(q).min(r.min(s)),
        hi: p.max(q).max(r.max(s)),
    }
}

// The exact product with the number c: only two of the four products of ends differ.
#[tactic(auto, using(crate::proofs::Least::choices_of_two), unfolding(crate::specs::Interval::wide_i))]
pub fn mul_point(c: i64, x: Interval) -> Interval
    requires { FitsMul (point_i c) x }
    ensures { result ≡ wide_i (point_i c) x }
{
    let p = c * x.lo;
    let q = c * x.hi;
    Interval {
        lo: p.min(q),
        hi: p.max(q),
    }
}

// The exact product with an interval that holds 0: two of the four products can be the least, the other two the
// greatest.
pub fn mul_around(a: Interval, b: Interval) -> Interval
    requires { FitsAround a b }
    ensures { result ≡ wide_i a b }
{
    Interval {
        lo: (a.lo * b.hi).min(a.hi * b.lo),
        hi: (a.lo * b.lo).max(a.hi * b.hi),
    }
}

// One outward rounding to marks.
#[tactic(auto, unfolding(crate::specs::Interval::out_i))]
pub fn outward(a: Interval) -> Interval
    requires { Within a.hi up_max }
    ensures { result ≡ out_i a }
{
    Interval {
        lo: floor_div(a.lo),
        hi: ceil_div(a.hi),
    }
}

#[tactic(auto, unfolding(crate::specs::Interval::mul_i))]
pub fn times(a: Interval, b: Interval) -> Interval
    requires { FitsTimes a b }
    ensures { result ≡ mul_i a b }
{
    outward(mul_wide(a, b))
}

// The shift rounds down, on negative sums too.
#[tactic(auto, using(crate::proofs::Division::shifts), unfolding(crate::specs::Interval::mid_i))]
pub fn middle(a: Interval) -> i64
    requires { FitsMid a }
    ensures { result ≡ mid_i a }
{
    (a.lo + a.hi) >> 1
}

#[tactic(auto, using(crate::proofs::Least::choices), unfolding(crate::specs::Interval::cut_i))]
pub fn cut(x: Interval, k: Interval) -> Interval
    ensures { result ≡ cut_i x k }
{
    Interval {
        lo: x.lo.max(k.lo),
        hi: x.hi.min(k.hi),
    }
}

#[tactic(auto, unfolding(crate::specs::Interval::meets_i))]
pub fn meets(x: Interval, k: Interval) -> bool
    ensures { result ≡ meets_i x k }
{
    k.lo <= x.hi && x.lo <= k.hi
}

#[tactic(auto, unfolding(crate::specs::Interval::inside_i))]
pub fn strictly_inside(x: Interval, k: Interval) -> bool
    ensures { result ≡ inside_i x k }
{
    x.lo < k.lo && k.hi < x.hi
}
