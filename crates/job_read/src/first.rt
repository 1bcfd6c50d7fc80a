// The lines before the system.
ghost use Rattle.std.specs.Prelude.{◌≡◌, ◌≤◌, length};
ghost use Rattle.sizes.specs.Sizes.{n_max};
ghost use Rattle.job_read.specs.Parts.{Unpinned, NamesFrom, PinFrom, HeadFrom, BoxFrom};

use crate::told;
use faults::Checked;
use jobs::lines::last_pin;
use jobs::zero::zero_head;
use jobs::{Ends, Head, JobLine, Kind, Row};
use line_read::counts::{number_line, pin_line, pin_stands, steps_line, unknowns_line};
use line_read::words::kind_line;
use list_read::numbers::{high_line, inverse_line, low_line};
use scan::At;
use sizes::N;

// What the lines from lo to steps say.
#[derive(Clone, Copy)]
pub struct Boxed {
    pub ends: Ends,
    pub inv: [Row; N],
    pub steps: u64,
}

// "job, kind, n"
pub fn names_at(text: &[u8]) -> Checked<At<Head>>
    ensures { NamesFrom text.now result }
{
    let none = zero_head();
    let j = told(number_line(text, 0), JobLine::Number, none)?;
    let k = told(kind_line(text, j.next), JobLine::Kind, none)?;
    let u = told(unknowns_line(text, k.next), JobLine::Unknowns, none)?;
    Ok(At {
        value: Head {
            number: j.value,
            kind: k.value,
            n: u.value,
            pin: last_pin(k.value, u.value),
        },
        next: u.next,
    })
}

// An eigenpair's pin where it is written; where it is not, no line is read.
fn pin_at(text: &[u8], from: usize, head: Head) -> Checked<At<Head>>
    requires { (from ≤ length text.now) × Unpinned head }
    ensures { PinFrom text.now from head result }
{
    if !pin_stands(text, from) {
        return Ok(At {
            value: head,
            next: from,
        });
    }
    let p = told(pin_line(text, from, head.n), JobLine::Pin, head)?;
    Ok(At {
        value: Head {
            pin: p.value,
            ..head
        },
        next: p.next,
    })
}

// The lines before lo.
pub fn head_at(text: &[u8]) -> Checked<At<Head>>
    ensures { HeadFrom text.now result }
{
    let h = names_at(text)?;
    match h.value.kind {
        Kind::Poly | Kind::Linear => Ok(h),
        Kind::Eigen => pin_at(text, h.next, h.value),
    }
}

// "lo, hi, inv, steps"
pub fn box_at(text: &[u8], from: usize, head: Head) -> Checked<At<Boxed>>
    requires { (from ≤ length text.now) × (head.n ≤ n_max) }
    ensures { BoxFrom text.now from head result }
{
    let l = told(low_line(text, from, head.n), JobLine::Lo, head)?;
    let lo = l.value;
    let h = told(high_line(text, l.next, head.n, lo), JobLine::Hi, head)?;
    let hi = h.value;
    let i = told(inverse_line(text, h.next, head.n), JobLine::Inv, head)?;
    let inv = i.value;
    let s = told(steps_line(text, i.next), JobLine::Steps, head)?;
    Ok(At {
        value: Boxed {
            ends: Ends { lo, hi },
            inv,
            steps: s.value,
        },
        next: s.next,
    })
}
