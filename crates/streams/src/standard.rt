// The standard streams. One that does not wait is shared with who set it so; opened anew, a pipe and a terminal wait.
ghost use Rattle.std.specs.Io.{ReadsAtMost, WritesAtMost};

use std::fs::{Files, OpenOptions};
use std::io::{Error, ErrorKind, Read, Stderr, Stdin, Stdout, Write};
use std::{fs, io};

// A stream, and the name by which it is opened anew.
#[derive(Drop)]
pub struct Waiting<'a, S, F> {
    stream: S,
    files: &'a F,
    name: &'static str,
}

pub fn input<F: Files>(files: &F, stream: Stdin) -> Waiting<'_, Stdin, F> {
    Waiting {
        stream,
        files,
        name: "/proc/self/fd/0",
    }
}

pub fn output<F: Files>(files: &F, stream: Stdout) -> Waiting<'_, Stdout, F> {
    Waiting {
        stream,
        files,
        name: "/proc/self/fd/1",
    }
}

pub fn errors<F: Files>(files: &F, stream: Stderr) -> Waiting<'_, Stderr, F> {
    Waiting {
        stream,
        files,
        name: "/proc/self/fd/2",
    }
}

impl<S, F: Files> Waiting<'_, S, F> {
    // In place of what was not ready. Where it cannot be opened, as a socket, it stays as it was.
    fn read_anew(&self, buf: &mut [u8]) -> io::Result<usize>
        ensures { ReadsAtMost result buf.new }
    {
        let mut anew = fs::open(self.files, self.name)?;
        anew.read(buf)
    }

    fn write_anew(&self, bytes: &[u8]) -> io::Result<usize>
        ensures { WritesAtMost result bytes.now }
    {
        let mut anew = OpenOptions::new().append(true).open(self.files, self.name)?;
        anew.write(bytes)
    }
}

// What failed when it was opened anew is not ready yet.
fn not_ready(_error: Error) -> Error {
    Error::from(ErrorKind::WouldBlock)
}

impl<S: Read, F: Files> Read for Waiting<'_, S, F> {
    fn read(&mut self, buf: &mut [u8]) -> io::Result<usize> {
        match self.stream.read(buf) {
            Err(e) if e.kind() == ErrorKind::WouldBlock => self.read_anew(buf).map_err(not_ready),
            ended => ended,
        }
    }
}

impl<S: Write, F: Files> Write for Waiting<'_, S, F> {
    fn write(&mut self, bytes: &[u8]) -> io::Result<usize> {
        match self.stream.write(bytes) {
            Err(e) if e.kind() == ErrorKind::WouldBlock => self
                .write_anew(bytes)
                .map_err(not_ready),
            ended => ended,
        }
    }

    fn flush(&mut self) -> io::Result<()> {
        self.stream.flush()
    }
}
