// One Krawczyk step: the image K of a box X, and what X and K decide.
#![tactic(auto)]

pub mod values;

ghost use Rattle.std.specs.Prelude.{◌≡◌, ◌≤◌};
ghost use Rattle.sizes.specs.Sizes.{n_max};
ghost use Rattle.intervals.specs.Interval.{point_i, add_i, neg_i};
ghost use Rattle.intervals.specs.Places.{entry_at, side_at, cell_at, vector_of};
ghost use Rattle.slopes.specs.Ranges.{BoxIn};
ghost use Rattle.step.specs.Step.{middle_of, image_from};
ghost use Rattle.step.specs.Decide.{decide_of};
ghost use Rattle.step.specs.Ranges.{ImageIn, JoinIn};

use intervals::{Interval, ZERO};
use lists::filled;
use sizes::N;

// What a step decides: a verdict, or that X becomes the cut and the next step begins.
#[derive(Clone, Copy)]
pub enum Move {
    None,
    Unique,
    Stalled,
    Next,
}

// The box stands beside the enum, which holds no array.
#[derive(Clone, Copy)]
pub struct Decision {
    pub what: Move,
    pub sides: [Interval; N],
}

// n itself. Where the compiler sees that a count is from 1 to N, it unrolls the loops that go so far; in a function
// that stands by itself only where every caller hands over such a count.
pub fn bounded(n: usize) -> usize
    requires { (1 ≤ n) × (n ≤ n_max) }
    ensures { result ≡ n }
{
    if n < 2 {
        return 1;
    }
    if n < N { n } else { N }
}

// m, as the box [m, m].
pub fn middles(x: [Interval; N], n: usize) -> [Interval; N]
    requires { BoxIn n (side_at x) }
    ensures { result ≡ vector_of n (λ k. point_i (middle_of (side_at x) k)) }
{
    filled(ZERO, n, |k| intervals::point(intervals::middle(x[k])))
}

// Z = X - m.
pub fn offsets(x: [Interval; N], m: [Interval; N], n: usize) -> [Interval; N]
    requires x_in { BoxIn n (side_at x) }
    requires m_in { BoxIn n (side_at m) }
    ensures { result ≡ vector_of n (λ k. add_i (side_at x k) (neg_i (side_at m k))) }
{
    filled(ZERO, n, |k| intervals::add(x[k], intervals::negated(m[k])))
}

// K = m - D + E. (A closure's three sums, for `lists::filled`: the proof of what they ask was not found.)
#[tactic(auto, using(lists::proofs::Fills::fills))]
pub fn joined(m: [Interval; N], d: [Interval; N], e: [Interval; N], n: usize) -> [Interval; N]
    requires { JoinIn n (side_at m) (side_at d) (side_at e) }
    ensures { result ≡ vector_of n (λ i. add_i (add_i (side_at m i) (neg_i (side_at d i))) (side_at e i)) }
{
    let mut k = [ZERO; N];
    for i in 0..n {
        let newton = intervals::add(m[i], intervals::negated(d[i]));
        k[i] = intervals::add(newton, e[i]);
    }
    k
}

// The image K of the box x, with the inverse c: from its middles m, the values f over them and the slopes s over x.
pub fn image(
    c: [[i64; N]; N],
    x: [Interval; N],
    m: [Interval; N],
    f: [Interval; N],
    s: [[Interval; N]; N],
    n: usize,
) -> [Interval; N]
    requires { ImageIn n (entry_at c) (side_at x) (side_at m) (side_at f) (cell_at s) }
    ensures { result ≡ vector_of n (image_from n (entry_at c) (side_at x) (side_at m) (side_at f) (cell_at s)) }
{
    let d = matrices::d_vector(c, f, n);
    let b = matrices::b_matrix(c, s, n);
    let z = offsets(x, m, n);
    let e = matrices::e_vector(b, z, n);
    joined(m, d, e, n)
}

// What the image k decides on the box x, by one look at each coordinate: a chain for each question would look again.
pub fn decide(x: [Interval; N], k: [Interval; N], n: usize) -> Decision
    requires { n ≤ n_max }
    ensures { result ≡ decide_of n x k }
{
    let mut c = [ZERO; N];
    let mut inside = true;
    let mut same = true;
    for i in 0..n {
        let a = x[i];
        let b = k[i];
        if !intervals::meets(a, b) {
            return Decision {
                what: Move::None,
                sides: x,
            };
        }
        let side = intervals::cut(a, b);
        inside &= intervals::strictly_inside(a, b);
        same &= side == a;
        c[i] = side;
    }
    if inside {
        return Decision {
            what: Move::Unique,
            sides: k,
        };
    }
    if same {
        return Decision {
            what: Move::Stalled,
            sides: x,
        };
    }
    Decision {
        what: Move::Next,
        sides: c,
    }
}
