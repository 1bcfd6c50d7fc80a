// What `halve` is told: a depth, and how many boxes the list can hold.
ghost use Rattle.std.specs.Prelude.{◌≡◌};
ghost use Rattle.arguments.specs.Depths.{deep_by};

use crate::counts::count_of;
use crate::longs::long_number;
use crate::words::first_word;
use sizes::BOXES;

#[derive(Clone, Copy)]
pub struct Deep {
    pub depth: i64,
    pub room: usize,
}

// DEPTH and ROOM.
#[tactic(auto, unfolding(crate::specs::Depths::deep_by, crate::specs::Depths::deep_from))]
pub fn deep_of(s: &[u8]) -> Option<Deep>
    ensures { result ≡ deep_by s.now }
{
    let (depth, room) = first_word(s);
    let depth = long_number(depth)?;
    let room = count_of(room)?;
    if room > BOXES as u64 {
        return None;
    }
    Some(Deep {
        depth,
        room: room as usize,
    })
}
