// Terms, equations and slopes over a box.
#![tactic(auto)]

ghost use Rattle.std.specs.Prelude.{◌≡◌, ◌<◌};
ghost use Rattle.intervals.specs.Interval.{point_i};
ghost use Rattle.intervals.specs.Places.{side_at};
ghost use Rattle.slopes.specs.Terms.{factor_i, equation_over, lowered, slope_row};
ghost use Rattle.slopes.specs.Ranges.{FactorIn, BoxIn, EquationIn};

use intervals::{Interval, ZERO};
use jobs::{Equation, Term};
use sizes::N;

// a multiplied by the power e of x; without x there is no product.
#[tactic(auto, unfolding(crate::specs::Terms::factor_i))]
pub fn factor(a: Interval, x: Interval, e: u8) -> Interval
    requires { FactorIn e a x }
    ensures { result ≡ factor_i e a x }
{
    if e == 0 {
        return a;
    }
    intervals::times(a, powers::power(x, e))
}

// "begin with [c, c]"
pub fn start(t: Term) -> Interval
    ensures { result ≡ point_i t.coef }
{
    intervals::point(t.coef)
}

// The exponent d of unknown k, where that of unknown j is lowered by one.
#[tactic(auto, unfolding(crate::specs::Terms::lowered))]
pub fn less(d: u8, k: usize, j: usize) -> u8
    requires { k ≡ j → 0 < d }
    ensures { result ≡ lowered j (λ _. d) k }
{
    if k == j { d - 1 } else { d }
}

// An equation over one box, and its slopes over another.
#[derive(Clone, Copy)]
pub struct Over {
    pub value: Interval,
    pub slopes: [Interval; N],
}

// Each term is visited once, by its place, as the contract counts them. Few of the unknowns stand in a term: the first
// `some` of `live` are their places, so that no slope looks at the others again.
pub fn equation_over(q: Equation, m: [Interval; N], x: [Interval; N], n: usize) -> Over
    requires m_in { BoxIn n (side_at m) }
    requires x_in { BoxIn n (side_at x) }
    requires q_in { EquationIn n q }
    ensures { (result.value ≡ equation_over n q (side_at m)) × (result.slopes ≡ slope_row n q (side_at x)) }
{
    let mut value = ZERO;
    let mut slopes = [ZERO; N];
    for i in 0..q.count {
        let t = q.terms[i];
        let mut b = start(t);
        let mut live = [0; N];
        let mut some = 0;
        for k in 0..n {
            let e = t.exps[k];
            if e != 0 {
                b = factor(b, m[k], e);
                live[some] = k;
                some += 1;
            }
        }
        value = intervals::add(value, b);
        let places = &live[..some];
        for &j in places {
            let mut a = start(t);
            for &k in places {
                a = factor(a, x[k], less(t.exps[k], k, j));
            }
            slopes[j] = intervals::add(slopes[j], intervals::scaled(t.exps[j], a));
        }
    }
    Over { value, slopes }
}
