// The program's arguments, as bytes: a word that is typed need not be text.
ghost use Rattle.std.specs.Prelude.{◌≤◌, length, IfOk};

use std::env::{Env, FillError};

// As many bytes as a path can have, and one that ends it.
pub const WORD: usize = 4096;

pub fn count<V: Env>(env: &V) -> usize {
    for i in 0..usize::MAX {
        if let Err(FillError::NotPresent) = env.arg(i, &mut []) {
            return i;
        }
    }
    usize::MAX
}

pub fn whole_word<V: Env>(env: &V, place: usize, word: &mut [u8; WORD]) -> Result<usize, FillError>
    ensures { IfOk result (λ n. n ≤ length word.new) }
{
    env.arg(place, word)
}

// Of a word that is too long nothing is kept.
pub fn word_at<V: Env>(env: &V, place: usize, word: &mut [u8; WORD]) -> usize
    ensures { result ≤ length word.new }
{
    whole_word(env, place, word).unwrap_or(0)
}
