// Lengths: counts joined by commas, as many as a line holds.
ghost use Rattle.std.specs.Prelude.{◌≡◌};
ghost use Rattle.arguments.specs.Lengths.{are_lengths};

use crate::counts::spelled;

pub fn are_lengths(s: &[u8]) -> bool
    ensures { result ≡ are_lengths s.now }
{
    s.split(|b| *b == b',').all(spelled)
}
