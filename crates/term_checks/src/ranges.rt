// Tests of sizes and of order, over the first n places of a list.
ghost use Rattle.std.specs.Prelude.{◌≡◌, ◌≤◌};
ghost use Rattle.sizes.specs.Sizes.{n_max};
ghost use Rattle.term_checks.specs.Ranges.{one_to, is_within, all_within, all_ordered};

use sizes::N;

// From 1 to most.
#[tactic(auto, unfolding(crate::specs::Ranges::one_to))]
pub fn one_to(most: usize, m: usize) -> bool
    ensures { result ≡ one_to most m }
{
    (1..=most).contains(&m)
}

// From -most to most. (z is below -most where it is at most -1 - most, and that never overflows.)
pub fn within(z: i64, most: i64) -> bool
    ensures { result ≡ is_within z most }
{
    -1 - most < z && z <= most
}

pub fn all_within(xs: [i64; N], n: usize, most: i64) -> bool
    requires { n ≤ n_max }
    ensures { result ≡ all_within xs n most }
{
    for x in &xs[..n] {
        if !within(*x, most) {
            return false;
        }
    }
    true
}

// Each low end is at most its high end.
#[tactic(auto, unfolding(crate::specs::Ranges::all_ordered))]
pub fn all_ordered(lo: [i64; N], hi: [i64; N], n: usize) -> bool
    requires { n ≤ n_max }
    ensures { result ≡ all_ordered lo hi n }
{
    for (l, h) in lo[..n].iter().zip(&hi[..n]) {
        if h < l {
            return false;
        }
    }
    true
}
