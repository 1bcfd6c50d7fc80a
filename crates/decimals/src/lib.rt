// A number of marks, written in units.
#![tactic(auto)]

ghost use Rattle.std.specs.Prelude.{◌+◌, ◌<◌, ◌≤◌, ◌^◌, nat_abs};
ghost use Rattle.digits.specs.Number.{digits_max};
ghost use Rattle.writing.specs.Wrote.{place_max, Wrote};
ghost use Rattle.decimals.specs.Units.{unit, decimals_max, decimals, fraction, show_size, show_units};

use sizes::MARK;
use writing::{put_byte, put_magnitude};

// Marks of a unit.
const UNIT: u64 = MARK as u64;
// Digits behind the point.
const DECIMALS: usize = 16;

fn put_decimals(buf: &mut [u8], at: usize, r: u64) -> usize
    requires { (at + decimals_max ≤ place_max) × (r < unit) }
    ensures { Wrote buf.old buf.new at result (decimals decimals_max r) }
{
    let mut p = at;
    let mut left = r;
    for _k in 0..DECIMALS {
        if left == 0 {
            return p;
        }
        let tens = left * 10;
        p = put_byte(buf, p, b'0' + (tens / UNIT) as u8);
        left = tens % UNIT;
    }
    p
}

fn put_fraction(buf: &mut [u8], at: usize, r: u64) -> usize
    requires { (at + decimals_max < place_max) × (r < unit) }
    ensures { Wrote buf.old buf.new at result (fraction r) }
{
    if r == 0 {
        return at;
    }
    let next = put_byte(buf, at, b'.');
    put_decimals(buf, next, r)
}

fn put_size(buf: &mut [u8], at: usize, m: u64) -> usize
    requires { at + digits_max + decimals_max < place_max }
    ensures { Wrote buf.old buf.new at result (show_size m) }
{
    let next = put_magnitude(buf, at, m / UNIT, digits::DIGITS);
    put_fraction(buf, next, m % UNIT)
}

// A number of at most nine digits of marks.
pub fn put_units(buf: &mut [u8], at: usize, v: i64) -> usize
    requires { (at + 1 + digits_max + decimals_max < place_max) × (nat_abs v < 10 ^ digits_max) }
    ensures { Wrote buf.old buf.new at result (show_units v) }
{
    let m = digits::abs(v);
    if v < 0 {
        let next = put_byte(buf, at, b'-');
        return put_size(buf, next, m);
    }
    put_size(buf, at, m)
}
