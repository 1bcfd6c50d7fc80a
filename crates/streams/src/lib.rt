// The program's streams: reading and writing. A call that a signal broke off is made again, and what is not ready is
// waited for.
#![tactic(auto)]

pub mod outcomes;
pub mod standard;

ghost use Rattle.std.specs.Prelude.{◌≤◌, length, take, IfOk, OnErr, OnOk};
ghost use Rattle.std.specs.Io.KnownBytes.{Appends, Keeps};

use std::io;
use std::io::{Error, ErrorKind, Read, Write};
use std::thread::yield_now;

// As many as a number of 64 bits can have.
const DIGITS: usize = 20;

// A call that fails so is made again. Others run before one that was not ready.
fn passing(error: &Error) -> bool {
    match error.kind() {
        ErrorKind::Interrupted => true,
        ErrorKind::WouldBlock => {
            yield_now();
            true
        }
        _ => false,
    }
}

// What there is of the input, no byte where it has ended. Nothing says that such calls end, so the turns are counted,
// up to a number that no run comes to.
pub fn read_some<R: Read>(from: &mut R, buf: &mut [u8]) -> io::Result<usize>
    ensures { IfOk result (λ n. n ≤ length buf.old) }
{
    for _ in 0..u64::MAX {
        match from.read(buf) {
            Err(e) if passing(&e) => {}
            ended => return ended,
        }
    }
    Err(Error::from(ErrorKind::TimedOut))
}

// The input's next bytes, until the buffer is full or the input ends.
pub fn fill<R: Read>(from: &mut R, buf: &mut [u8]) -> io::Result<usize>
    ensures { IfOk result (λ n. n ≤ length buf.old) }
{
    let mut n = 0;
    while n < buf.len() {
        let more = read_some(from, &mut buf[n..])?;
        if more == 0 {
            return Ok(n);
        }
        n += more;
    }
    Ok(n)
}

// (As read_some but for the call: of a closure that writes no clause says what it appended.)
fn write_once<W: Write>(to: &mut W, bytes: &[u8]) -> io::Result<usize>
    ensures bound { IfOk result (λ n. n ≤ length bytes.now) }
    ensures some { IfOk result (λ n. Appends (W.contents to.old) (W.contents to.new) (take n bytes.now)) }
    ensures none { OnErr result (Keeps (W.contents to.old) (W.contents to.new)) }
{
    for _ in 0..u64::MAX {
        match to.write(bytes) {
            Err(e) if passing(&e) => {}
            ended => return ended,
        }
    }
    Err(Error::from(ErrorKind::TimedOut))
}

// An error where some cannot be written.
pub fn write_whole<W: Write>(to: &mut W, bytes: &[u8]) -> io::Result<()>
    ensures { OnOk result (Appends (W.contents to.old) (W.contents to.new) bytes.now) }
{
    let mut rest = bytes;
    while !rest.is_empty() {
        let n = write_once(to, rest)?;
        if n == 0 {
            return Err(Error::from(ErrorKind::WriteZero));
        }
        rest = &rest[n..];
    }
    Ok(())
}

// Nobody can be told where standard error itself fails.
pub fn say<W: Write>(err: &mut W, words: &[u8]) {
    let _ = write_whole(err, words);
}

// A number, as one piece.
pub fn say_number<W: Write>(err: &mut W, v: u64) {
    let mut digits = [0u8; DIGITS];
    let mut rest = &mut digits[..];
    let _ = write!(rest, "{v}");
    let n = DIGITS.saturating_sub(rest.len());
    say(err, &digits[..n]);
}

// A writer of whole answers: it waits, and so does `write!` to it.
#[derive(Drop)]
pub struct Whole<W>(pub W);

impl<W: Write> Write for Whole<W> {
    ghost contents = { λ whole. W.contents whole.0 };

    fn write(&mut self, bytes: &[u8]) -> io::Result<usize> {
        write_once(&mut self.0, bytes)
    }

    fn flush(&mut self) -> io::Result<()> {
        self.0.flush()
    }

    fn write_all(&mut self, bytes: &[u8]) -> io::Result<()> {
        write_whole(&mut self.0, bytes)
    }
}
