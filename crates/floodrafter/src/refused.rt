// What the system refused, in its own words.
use std::io::{Error, Write};
use streams::say;

// More than any of the system's sentences has, with the number that std puts behind it.
const SENTENCE: usize = 320;

// ENAMETOOLONG and EILSEQ.
const TOO_LONG: i32 = 36;

const NOT_TEXT: i32 = 84;

pub fn too_long() -> Error {
    Error::from_raw_os_error(TOO_LONG)
}

// A path is text: no file can be opened by a name that is not.
pub fn not_text() -> Error {
    Error::from_raw_os_error(NOT_TEXT)
}

// "No such file or directory (os error 2)" without the number.
fn without_number(sentence: &str) -> &str {
    match sentence.split_once(" (os error ") {
        Some((words, _)) => words,
        None => sentence,
    }
}

fn say_error<E: Write>(err: &mut E, error: &Error) {
    let mut sentence = [0u8; SENTENCE];
    let mut rest = &mut sentence[..];
    let _ = write!(rest, "{error}");
    let n = SENTENCE.saturating_sub(rest.len());
    if let Ok(words) = str::from_utf8(&sentence[..n]) {
        say(err, without_number(words).as_bytes());
    }
}

pub fn say_refused<E: Write>(err: &mut E, name: &[u8], error: &Error) {
    say(err, b"floodrafter: ");
    say(err, name);
    say(err, b": ");
    say_error(err, error);
    say(err, b"\n");
}
