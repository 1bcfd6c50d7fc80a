// The powers of an unknown over its interval: a square is never negative.
#![tactic(auto)]

ghost use Rattle.std.specs.Prelude.{◌≡◌};
ghost use Rattle.sizes.specs.Sizes.{end_max};
ghost use Rattle.intervals.specs.Ranges.{InI};
ghost use Rattle.powers.specs.Powers.{holds_zero, square_range, square_i, cube_i, power_i};

use intervals::Interval;

// Both ends belong to the interval.
#[tactic(auto, unfolding(crate::specs::Powers::holds_zero))]
pub fn holds_zero(x: Interval) -> bool
    ensures { result ≡ holds_zero x }
{
    x.lo <= 0 && 0 <= x.hi
}

// The exact range of the square.
#[tactic(auto, using(crate::proofs::Ranges::fitting), unfolding(crate::specs::Powers::square_range))]
pub fn square_range(x: Interval) -> Interval
    requires { InI end_max x }
    ensures { result ≡ square_range x }
{
    let p = x.lo * x.lo;
    let q = x.hi * x.hi;
    let hi = p.max(q);
    if holds_zero(x) {
        Interval { lo: 0, hi }
    } else {
        Interval { lo: p.min(q), hi }
    }
}

#[tactic(auto, using(crate::proofs::Ranges::fitting), unfolding(crate::specs::Powers::square_i))]
pub fn square(x: Interval) -> Interval
    requires { InI end_max x }
    ensures { result ≡ square_i x }
{
    intervals::outward(square_range(x))
}

// The square is rounded before it is multiplied.
#[tactic(auto, unfolding(crate::specs::Powers::cube_i))]
pub fn cube(x: Interval) -> Interval
    requires { InI end_max x }
    ensures { result ≡ cube_i x }
{
    intervals::times(square(x), x)
}

// x to the power of e, for an exponent of at least 1. (A `match` on e, tried, makes a step of 16 terms a sixth dearer.)
#[tactic(auto, unfolding(crate::specs::Powers::power_i))]
pub fn power(x: Interval, e: u8) -> Interval
    requires { InI end_max x }
    ensures { result ≡ power_i e x }
{
    if e < 2 {
        x
    } else if e == 2 {
        square(x)
    } else {
        cube(x)
    }
}
