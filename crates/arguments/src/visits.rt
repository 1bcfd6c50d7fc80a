// What `step`, `close` and `reading` are told: a slot, a visit, and how many bytes a buffer has.
ghost use Rattle.std.specs.Prelude.{◌≡◌};
ghost use Rattle.arguments.specs.Visits.{shown_by, read_by};

use crate::counts::count_of;
use crate::words::first_word;
use sizes::TEXT;

#[derive(Clone, Copy)]
pub struct Shown {
    pub slot: u64,
    pub visit: u64,
    pub room: usize,
}

// SLOT and VISIT: the buffer is one for any text.
#[tactic(auto, unfolding(crate::specs::Visits::shown_by, crate::specs::Visits::shown_from))]
pub fn shown_of(s: &[u8]) -> Option<Shown>
    ensures { result ≡ shown_by s.now }
{
    let (slot, visit) = first_word(s);
    Some(Shown {
        slot: count_of(slot)?,
        visit: count_of(visit)?,
        room: TEXT,
    })
}

// SLOT, VISIT and ROOM.
#[tactic(auto, unfolding(crate::specs::Visits::read_by, crate::specs::Visits::shown_in, crate::specs::Visits::shown_from))]
pub fn read_of(s: &[u8]) -> Option<Shown>
    ensures { result ≡ read_by s.now }
{
    let (slot, behind) = first_word(s);
    let (visit, room) = first_word(behind);
    let slot = count_of(slot)?;
    let visit = count_of(visit)?;
    let room = count_of(room)?;
    if room > TEXT as u64 {
        return None;
    }
    Some(Shown {
        slot,
        visit,
        room: room as usize,
    })
}
