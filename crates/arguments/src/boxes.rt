// Boxes, and what `decide` is told.
ghost use Rattle.std.specs.Prelude.{◌≡◌};
ghost use Rattle.arguments.specs.Boxes.{boxed_by, told_by};

use crate::counts::count_of;
use crate::longs::list_of;
use crate::words::first_word;
use jobs::Ends;

#[derive(Clone, Copy)]
pub struct Told {
    pub n: usize,
    pub x: Ends,
    pub k: Ends,
}

// LO and HI.
#[tactic(auto, unfolding(crate::specs::Boxes::boxed_by, crate::specs::Boxes::box_from))]
pub fn box_of(s: &[u8]) -> Option<Ends>
    ensures { result ≡ boxed_by s.now }
{
    let (lo, hi) = first_word(s);
    Some(Ends {
        lo: list_of(lo)?,
        hi: list_of(hi)?,
    })
}

// N, LO, HI, KLO and KHI.
#[tactic(auto, unfolding(crate::specs::Boxes::told_by, crate::specs::Boxes::told_boxes, crate::specs::Boxes::told_from, crate::specs::Boxes::box_from))]
pub fn told_of(s: &[u8]) -> Option<Told>
    ensures { result ≡ told_by s.now }
{
    let (n, boxes) = first_word(s);
    let (lo, behind) = first_word(boxes);
    let (hi, k) = first_word(behind);
    Some(Told {
        n: count_of(n)? as usize,
        x: Ends {
            lo: list_of(lo)?,
            hi: list_of(hi)?,
        },
        k: box_of(k)?,
    })
}
