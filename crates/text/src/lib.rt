// The pieces of a text's line: its key, a count, a list of numbers.
#![tactic(auto)]

ghost use Rattle.std.specs.Prelude.{ℕ, ◌≡◌, ◌≢◌, ◌≤◌, ◌<◌, length, slice_index};
ghost use Rattle.text.specs.Keys.{starts_with, same_bytes};
ghost use Rattle.text.specs.Counts.{in_count};
ghost use Rattle.text.specs.Cut.{PieceEnd};

use sizes::N;

// The most numbers that a line keeps: those of `inv`.
pub const PLACES: usize = N * N;

// Why a number is no count: beyond the limit, or no number.
#[derive(Clone, Copy, PartialEq, Eq)]
pub enum Uncounted {
    Out,
    Bad,
}

// Whether l begins with key. (std's starts_with was tried: it is not inlined at a known key, and costs three times.)
pub fn starts(l: &[u8], key: &[u8]) -> bool
    ensures { result ≡ starts_with key.now l.now }
{
    if l.len() < key.len() {
        return false;
    }
    for i in 0..key.len() {
        if l[i] != key[i] {
            return false;
        }
    }
    true
}

pub fn same_bytes(l: &[u8], word: &[u8]) -> bool
    ensures { result ≡ same_bytes word.now l.now }
{
    l == word
}

// A count from 0 to a limit.
pub fn in_count(v: i64, most: u64) -> Result<u64, Uncounted>
    ensures { result ≡ in_count most v }
{
    match u64::try_from(v) {
        Ok(m) if m <= most => Ok(m),
        _ => Err(Uncounted::Out),
    }
}

// How many bytes stand before the first separator: all where there is none.
fn len_before(s: &[u8], sep: u8) -> usize
    ensures within { result ≤ length s.now }
    ensures before { (k : ℕ) → k < result → slice_index s.now k ≢ sep }
    ensures found { result < length s.now → slice_index s.now result ≡ sep }
{
    s.iter().position(|b| *b == sep).unwrap_or(s.len())
}

// Where the piece that begins at a ends: at the next separator, or at the end of the text.
pub fn piece_end(s: &[u8], a: usize, sep: u8) -> usize
    requires { a ≤ length s.now }
    ensures { PieceEnd s.now sep a result }
{
    a + len_before(&s[a..], sep)
}
