// What goes out: answers that wait, and those that are written.
ghost use Rattle.std.specs.Prelude.{◌≡◌, ◌≤◌, length};
ghost use Rattle.answers.specs.Answers.{room_max};
ghost use Rattle.listing.specs.Lines.{EntryIn};
ghost use Rattle.batch.specs.Hand.{block_max, out_max};

use crate::BLOCK;
use answers::{ROOM, put_answer};
use digits::DIGITS;
use listing::{Listing, put_box, put_head};
use std::io;
use std::io::Write;
use streams::write_whole;
use writing::put_count_line;

const OUT: usize = BLOCK + ROOM + DIGITS + 1;

// The first `used` bytes are not yet written.
#[derive(Drop)]
struct Block {
    bytes: [u8; OUT],
    used: usize,
    ghost within: { used ≤ block_max },
}

impl Block {
    fn first(&self, n: usize) -> &[u8]
        requires { n ≤ out_max }
    {
        &self.bytes[..n]
    }

    fn put_answer(&mut self, answer: &[u8]) -> usize
        requires { length answer.now ≤ room_max }
        ensures { result ≤ out_max }
    {
        put_answer(&mut self.bytes, self.used, answer)
    }

    // The length of a listing on a line, and its first piece.
    fn put_head(&mut self, l: Listing, bytes: usize) -> usize
        ensures { result ≤ out_max }
    {
        let first = put_count_line(&mut self.bytes, self.used, b"", bytes as u64);
        put_head(&mut self.bytes, first, l)
    }

    fn put_box(&mut self, n: usize, list: &[i64], i: usize) -> usize
        requires { EntryIn n list.now i }
        ensures { result ≤ out_max }
    {
        put_box(&mut self.bytes, self.used, n, list, i)
    }
}

#[derive(Drop)]
pub struct Output<'a, W> {
    writer: &'a mut W,
    block: Block,
}

impl<'a, W: Write> Output<'a, W> {
    pub fn new(writer: &'a mut W) -> Self {
        Output {
            writer,
            block: Block {
                bytes: [0; OUT],
                used: 0,
            },
        }
    }

    // The answers that wait.
    pub fn write(&mut self) -> io::Result<()>
        ensures { self.new.block.used ≡ 0 }
    {
        let used = self.block.used;
        self.block.used = 0;
        write_whole(self.writer, self.block.first(used))
    }

    // Behind them, at once.
    pub fn say(&mut self, words: &[u8]) -> io::Result<()>
        ensures { self.new.block.used ≡ self.old.block.used }
    {
        write_whole(self.writer, words)
    }

    // So many bytes are used now: what fills a block is written.
    fn filled(&mut self, used: usize) -> io::Result<()>
        requires { used ≤ out_max }
    {
        if used <= BLOCK {
            self.block.used = used;
            return Ok(());
        }
        self.block.used = 0;
        write_whole(self.writer, self.block.first(used))
    }

    pub fn add(&mut self, answer: &[u8]) -> io::Result<()>
        requires { length answer.now ≤ room_max }
    {
        let used = self.block.put_answer(answer);
        self.filled(used)
    }

    pub fn add_head(&mut self, l: Listing, bytes: usize) -> io::Result<()> {
        let used = self.block.put_head(l, bytes);
        self.filled(used)
    }

    pub fn add_box(&mut self, n: usize, list: &[i64], i: usize) -> io::Result<()>
        requires { EntryIn n list.now i }
    {
        let used = self.block.put_box(n, list, i);
        self.filled(used)
    }
}
