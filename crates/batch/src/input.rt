// What comes in: the bytes at hand, and more of it behind them.
ghost use Rattle.std.specs.Prelude.{◌≡◌, ◌-◌, ◌≤◌, length};
ghost use Rattle.batch.specs.Hand.{in_max};

use crate::BLOCK;
use requests::packets::HEADER;
use sizes::TEXT;
use std::io;
use std::io::Read;
use streams::read_some;

const IN: usize = HEADER + TEXT + 1 + BLOCK;

// The bytes at..end of the block are not yet answered.
#[derive(Drop)]
pub struct Input<'a, R> {
    reader: &'a mut R,
    block: [u8; IN],
    at: usize,
    end: usize,
    ghost begins: { at ≤ end },
    ghost ends: { end ≤ in_max },
}

impl<'a, R: Read> Input<'a, R> {
    pub fn new(reader: &'a mut R) -> Self {
        Input {
            reader,
            block: [0; IN],
            at: 0,
            end: 0,
        }
    }

    pub fn at_hand(&self) -> &[u8]
        ensures { length result.now ≡ self.now.end - self.now.at }
    {
        &self.block[self.at..self.end]
    }

    // Passes over so many bytes of those at hand, if there are as many; how many are left to pass over.
    pub fn pass(&mut self, n: u64) -> u64 {
        let here = (self.end - self.at) as u64;
        self.at += n.min(here) as usize;
        n.saturating_sub(here)
    }

    // More of the input behind what is at hand: how many bytes.
    pub fn more(&mut self) -> io::Result<usize> {
        self.block.copy_within(self.at..self.end, 0);
        self.end -= self.at;
        self.at = 0;
        let n = read_some(self.reader, &mut self.block[self.end..])?;
        self.end += n;
        Ok(n)
    }

    // Reads what is left to pass over, and keeps nothing at hand; whether the input has as many bytes.
    pub fn skip(&mut self, n: u64) -> io::Result<bool>
        ensures { (self.new.at ≡ 0) × (self.new.end ≡ 0) }
    {
        self.at = 0;
        self.end = 0;
        let mut left = n;
        while left > 0 {
            let want = left.min(IN as u64) as usize;
            let block = &mut self.block[..];
            let came = read_some(self.reader, &mut block[..want])?;
            if came == 0 {
                return Ok(false);
            }
            left -= came as u64;
        }
        Ok(true)
    }
}
