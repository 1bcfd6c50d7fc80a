// All closing positions, for C: the list of numbers is lent.
ghost use Rattle.floodrafter_c.specs.Lists.{GivesList};

use listing::list_text;

// `floodrafter_listing` of the header.
#[repr(C)]
#[derive(Clone, Copy)]
pub struct Boxes {
    pub fault: u64,
    pub line: u64,
    pub n: usize,
    pub boxes: usize,
}

#[unsafe(no_mangle)]
pub extern "C" fn floodrafter_halve(text: &[u8], depth: i64, list: &mut [i64]) -> Boxes
    ensures { GivesList text.now depth list.old list.new result }
{
    match list_text(text, depth, list) {
        Ok(l) => Boxes {
            fault: 0,
            line: 0,
            n: l.n,
            boxes: l.boxes,
        },
        Err(r) => Boxes {
            fault: u64::from(r.fault),
            line: r.line,
            n: 0,
            boxes: 0,
        },
    }
}
