// A line for each unknown, with its ends in units.
ghost use Rattle.std.specs.Prelude.{◌+◌, ◌*◌, ◌<◌, ◌≤◌, ◌^◌, nat_abs};
ghost use Rattle.digits.specs.Number.{digits_max};
ghost use Rattle.writing.specs.Wrote.{place_max, Wrote};
ghost use Rattle.units.specs.Show.{unknown_max, show_ends, unknown_line, unknown_lines, LinesFit};

use decimals::put_units;
use sizes::N;
use writing::{put_byte, put_bytes, put_magnitude};

fn put_ends(buf: &mut [u8], at: usize, lo: i64, hi: i64) -> usize
    requires { (at + unknown_max ≤ place_max) × (nat_abs lo < 10 ^ digits_max) × (nat_abs hi < 10 ^ digits_max) }
    ensures { Wrote buf.old buf.new at result (show_ends lo hi) }
{
    let a = put_units(buf, at, lo);
    let b = put_bytes(buf, a, b" to ");
    put_units(buf, b, hi)
}

fn put_unknown(buf: &mut [u8], at: usize, k: u64, lo: i64, hi: i64) -> usize
    requires { (at + 2 * unknown_max ≤ place_max) × (nat_abs lo < 10 ^ digits_max) × (nat_abs hi < 10 ^ digits_max) }
    ensures { Wrote buf.old buf.new at result (unknown_line k lo hi) }
{
    let a = put_bytes(buf, at, b"unknown ");
    let b = put_magnitude(buf, a, k, digits::DIGITS);
    let c = put_bytes(buf, b, b": ");
    let d = put_ends(buf, c, lo, hi);
    put_byte(buf, d, b'\n')
}

// The first n unknowns.
pub fn put_unknowns(buf: &mut [u8], at: usize, lo: [i64; N], hi: [i64; N], n: usize) -> usize
    requires { LinesFit at lo hi n }
    ensures { Wrote buf.old buf.new at result (unknown_lines n lo hi) }
{
    let mut p = at;
    for i in 0..n {
        p = put_unknown(buf, p, i as u64 + 1, lo[i], hi[i]);
    }
    p
}
