// Digits, and what a number of a text may be. "Numbers: an optional minus, 1 to 9 digits, no leading zero, no minus
// zero."
#![tactic(auto)]

ghost use Rattle.std.specs.Prelude.{◌≡◌, ◌-◌, ◌<◌, ◌^◌, nat_abs};
ghost use Rattle.digits.specs.Bytes.{digit0};
ghost use Rattle.digits.specs.Digits.{is_digit, all_digits};
ghost use Rattle.digits.specs.Number.{long_max};

pub const DIGITS: usize = 9;
// So many digits always fit a number of 64 bits.
pub const LONG: usize = 18;

#[tactic(auto, unfolding(crate::specs::Digits::is_digit))]
pub fn is_digit(b: u8) -> bool
    ensures { result ≡ is_digit b }
{
    b'0' <= b && b <= b'9'
}

pub fn all_digits(s: &[u8]) -> bool
    ensures { result ≡ all_digits s.now }
{
    s.iter().all(|b| is_digit(*b))
}

// What a digit stands for.
pub fn digit(b: u8) -> u8
    ensures { result ≡ b - digit0 }
{
    b.saturating_sub(b'0')
}

// The digits' part of a number of at most LONG digits.
pub fn abs(v: i64) -> u64
    requires { nat_abs v < 10 ^ long_max }
    ensures { result ≡ nat_abs v }
{
    v.unsigned_abs()
}
