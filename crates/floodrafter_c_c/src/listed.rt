// All closing positions.
ghost use Rattle.floodrafter_c.specs.Lists.{GivesList};

use floodrafter_c::listed::Boxes;

#[unsafe(no_mangle)]
pub extern "C" fn floodrafter_halve(text: &[u8], depth: i64, list: &mut [i64]) -> Boxes
    ensures { GivesList text.now depth list.old list.new result }
{
    floodrafter_c::listed::floodrafter_halve(text, depth, list)
}
