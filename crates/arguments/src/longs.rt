// Long numbers, "an optional minus, 1 to 18 digits, no leading zero, no minus zero", and lists of them.
ghost use Rattle.std.specs.Prelude.{◌≡◌};
ghost use Rattle.digits.specs.Number.{with_minus, without_minus};
ghost use Rattle.arguments.specs.Longs.{is_long, long_magnitude, long_of};
ghost use Rattle.arguments.specs.Lists.{places_of};

use crate::counts::{spelled, value_of};
use digits::LONG;
use sizes::N;
use text::piece_end;

#[tactic(auto, unfolding(crate::specs::Longs::is_long))]
fn is_long(s: &[u8]) -> bool
    ensures { result ≡ is_long s.now }
{
    s.len() <= LONG && spelled(s)
}

fn plus(s: &[u8]) -> Option<i64>
    ensures { result ≡ without_minus (long_magnitude s.now) }
{
    if is_long(s) {
        return Some(value_of(s) as i64);
    }
    None
}

fn minus(s: &[u8]) -> Option<i64>
    ensures { result ≡ with_minus (long_magnitude s.now) }
{
    let m = plus(s)?;
    if m == 0 {
        return None;
    }
    Some(-m)
}

#[tactic(auto, unfolding(crate::specs::Longs::long_of))]
pub fn long_number(s: &[u8]) -> Option<i64>
    ensures { result ≡ long_of s.now }
{
    match s.strip_prefix(b"-") {
        Some(digits) => minus(digits),
        None => plus(s),
    }
}

// The numbers of a list in their places, 0 past them.
pub fn list_of(s: &[u8]) -> Option<[i64; N]>
    ensures { result ≡ places_of s.now }
{
    let mut at = [0; N];
    let mut from = 0;
    for place in &mut at {
        let end = piece_end(s, from, b',');
        *place = long_number(&s[from..end])?;
        if end == s.len() {
            return Some(at);
        }
        from = end + 1;
    }
    None
}
