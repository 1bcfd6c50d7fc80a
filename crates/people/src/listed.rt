// A listing on standard output, piece by piece; an error where some cannot be written.
ghost use Rattle.listing.specs.Lines.{EntryIn};
ghost use Rattle.listing.specs.Listing.{Readable};

use answers::{ROOM, tell};
use faults::Refusal;
use listing::{Listing, put_box, put_head};
use std::io;
use std::io::Write;
use streams::write_whole;

// A fault's two lines.
pub fn print_fault<W: Write>(out: &mut W, refusal: Refusal) -> io::Result<()> {
    let mut room = [0u8; ROOM];
    let n = tell(Err(refusal), &mut room);
    write_whole(out, &room[..n])
}

fn print_head<W: Write>(out: &mut W, l: Listing) -> io::Result<()> {
    let mut piece = [0u8; ROOM];
    let n = put_head(&mut piece, 0, l);
    write_whole(out, &piece[..n])
}

fn print_box<W: Write>(out: &mut W, n: usize, list: &[i64], i: usize) -> io::Result<()>
    requires { EntryIn n list.now i }
{
    let mut piece = [0u8; ROOM];
    let n = put_box(&mut piece, 0, n, list, i);
    write_whole(out, &piece[..n])
}

pub fn print<W: Write>(out: &mut W, l: Listing, list: &[i64]) -> io::Result<()>
    requires { Readable l list.now }
{
    print_head(out, l)?;
    for i in 0..l.boxes {
        print_box(out, l.n, list, i)?;
    }
    Ok(())
}
