// The first word of a line.
ghost use Rattle.arguments.specs.Words.{FirstWord};

use text::piece_end;

// It, and what stands behind its space.
#[tactic(auto, unfolding(crate::specs::Words::before, crate::specs::Words::behind))]
pub fn first_word(s: &[u8]) -> (&[u8], &[u8])
    ensures { FirstWord result.0.now result.1.now s.now }
{
    let end = piece_end(s, 0, b' ');
    if end < s.len() {
        return (&s[..end], &s[end + 1..]);
    }
    (s, &[])
}
