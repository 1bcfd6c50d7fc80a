// The scalar products of a step: "The sums of products follow source document 004: exact, and rounded outward once."
// Each function works on the first n places of its arrays and leaves the others of its result zero. (The loops go by
// place: a turn reads one place of two arrays, in B down a column, and a chain of zips would be no plainer.)
#![tactic(auto)]

ghost use Rattle.std.specs.Prelude.{◌≡◌};
ghost use Rattle.intervals.specs.Interval.{point_i};
ghost use Rattle.intervals.specs.Places.{entry_at, side_at, cell_at, vector_of, matrix_of};
ghost use Rattle.matrices.specs.Products.{unit_z, d_of, b_of, e_of};
ghost use Rattle.matrices.specs.Ranges.{DIn, BIn, EIn};

use intervals::{Interval, ZERO};
use sizes::{MARK, N};

// 1.0 before the rounding of a product.
const ONE: i64 = MARK * MARK;

// D = C F.
#[tactic(auto, using(crate::proofs::Turns::turns))]
pub fn d_vector(c: [[i64; N]; N], f: [Interval; N], n: usize) -> [Interval; N]
    requires { DIn n (entry_at c) (side_at f) }
    ensures { result ≡ vector_of n (d_of n (entry_at c) (side_at f)) }
{
    let mut d = [ZERO; N];
    for i in 0..n {
        let row = c[i];
        let mut sum = ZERO;
        for k in 0..n {
            sum = intervals::add(sum, intervals::mul_point(row[k], f[k]));
        }
        d[i] = intervals::outward(sum);
    }
    d
}

// An entry of I, before rounding.
#[tactic(auto, unfolding(crate::specs::Products::unit_z))]
pub fn unit(i: usize, j: usize) -> Interval
    ensures { result ≡ point_i (unit_z i j) }
{
    if i == j {
        Interval { lo: ONE, hi: ONE }
    } else {
        ZERO
    }
}

// B = I - C S.
#[tactic(auto, using(crate::proofs::Turns::turns))]
pub fn b_matrix(c: [[i64; N]; N], s: [[Interval; N]; N], n: usize) -> [[Interval; N]; N]
    requires { BIn n (entry_at c) (cell_at s) }
    ensures { result ≡ matrix_of n (b_of n (entry_at c) (cell_at s)) }
{
    let mut b = [[ZERO; N]; N];
    for i in 0..n {
        let row = c[i];
        let mut line = [ZERO; N];
        for j in 0..n {
            let mut sum = ZERO;
            for k in 0..n {
                sum = intervals::add(sum, intervals::mul_point(row[k], s[k][j]));
            }
            line[j] = intervals::outward(intervals::add(unit(i, j), intervals::negated(sum)));
        }
        b[i] = line;
    }
    b
}

// E = B Z.
#[tactic(auto, using(crate::proofs::Turns::turns), unfolding(crate::specs::Products::e_of))]
pub fn e_vector(b: [[Interval; N]; N], z: [Interval; N], n: usize) -> [Interval; N]
    requires { EIn n (cell_at b) (side_at z) }
    ensures { result ≡ vector_of n (e_of n (cell_at b) (side_at z)) }
{
    let mut e = [ZERO; N];
    for i in 0..n {
        let row = b[i];
        let mut sum = ZERO;
        for k in 0..n {
            sum = intervals::add(sum, intervals::mul_around(row[k], z[k]));
        }
        e[i] = intervals::outward(sum);
    }
    e
}
