// A count in digits.
ghost use Rattle.std.specs.Prelude.{◌≡◌, ◌+◌, ◌*◌};
ghost use Rattle.arguments.specs.Counts.{capped, value_from, is_spelled, count_by};

use digits::{all_digits, digit};

// One digit more, as far as a u64 holds it.
fn longer(v: u64, digit: u8) -> u64
    ensures { result ≡ capped (v * 10 + digit) }
{
    v.saturating_mul(10).saturating_add(u64::from(digit))
}

pub fn value_of(s: &[u8]) -> u64
    ensures { result ≡ capped (value_from 0 s.now) }
{
    s.iter().fold(0, |v, b| longer(v, digit(*b)))
}

#[tactic(auto, unfolding(crate::specs::Counts::is_spelled))]
pub fn spelled(s: &[u8]) -> bool
    ensures { result ≡ is_spelled s.now }
{
    match s {
        [] => false,
        [b'0', rest @ ..] => rest.is_empty(),
        _ => all_digits(s),
    }
}

#[tactic(auto, unfolding(crate::specs::Counts::count_by))]
pub fn count_of(s: &[u8]) -> Option<u64>
    ensures { result ≡ count_by s.now }
{
    if spelled(s) { Some(value_of(s)) } else { None }
}
