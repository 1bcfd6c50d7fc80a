// The step in two operations, for C: a box is a struct of its ends, and so is an answer.
ghost use Rattle.std.specs.Prelude.{◌≡◌};
ghost use Rattle.one_step.specs.OneStep.{gives_move};
ghost use Rattle.floodrafter_c.specs.Steps.{ends_in, sides_of, shown_by, move_number, moved_by};
ghost use Rattle.floodrafter_c.specs.Steps.{shown_start, shown_image};

use faults::Checked;
use job_read::read_job;
use jobs::Ends;
use jobs::zero::zero_ends;
use one_step::Decided;
use sizes::N;
use step::Move;

// `floodrafter_box` of the header.
#[repr(C)]
#[derive(Clone, Copy)]
pub struct Sides {
    pub lo: [i64; N],
    pub hi: [i64; N],
}

// `floodrafter_shown`: n, and a box of n unknowns.
#[repr(C)]
#[derive(Clone, Copy)]
pub struct Shown {
    pub fault: u64,
    pub line: u64,
    pub n: usize,
    pub sides: Sides,
}

// `floodrafter_move`.
#[repr(C)]
#[derive(Clone, Copy)]
pub struct Moved {
    pub fault: u64,
    pub line: u64,
    pub verdict: u64,
    pub sides: Sides,
}

impl From<Sides> for Ends {
    ghost from_gives = { λ b e. e ≡ ends_in b };

    fn from(b: Sides) -> Ends {
        let Sides { lo, hi } = b;
        Ends { lo, hi }
    }
}

impl From<Ends> for Sides {
    ghost from_gives = { λ e b. b ≡ sides_of e };

    fn from(e: Ends) -> Sides {
        let Ends { lo, hi } = e;
        Sides { lo, hi }
    }
}

fn show(n: usize, box_told: Checked<Ends>) -> Shown
    ensures { result ≡ shown_by n box_told }
{
    match box_told {
        Ok(e) => Shown {
            fault: 0,
            line: 0,
            n,
            sides: Sides::from(e),
        },
        Err(r) => Shown {
            fault: u64::from(r.fault),
            line: r.line,
            n: 0,
            sides: Sides::from(zero_ends()),
        },
    }
}

// (No `From`: neither type is of this crate.)
fn move_number(what: Move) -> u64
    ensures { result ≡ move_number what }
{
    match what {
        Move::None => 0,
        Move::Unique => 1,
        Move::Stalled => 2,
        Move::Next => 3,
    }
}

fn told(decided: Checked<Decided>) -> Moved
    ensures { result ≡ moved_by decided }
{
    match decided {
        Ok(d) => Moved {
            fault: 0,
            line: 0,
            verdict: move_number(d.what),
            sides: Sides::from(d.ends),
        },
        Err(r) => Moved {
            fault: u64::from(r.fault),
            line: r.line,
            verdict: move_number(Move::None),
            sides: Sides::from(zero_ends()),
        },
    }
}

#[unsafe(no_mangle)]
pub extern "C" fn floodrafter_start(text: &[u8]) -> Shown
    ensures { result ≡ shown_start text.now }
{
    match read_job(text) {
        Ok(j) => show(j.head.n, Ok(j.ends)),
        Err(r) => show(0, Err(r)),
    }
}

#[unsafe(no_mangle)]
pub extern "C" fn floodrafter_image(text: &[u8], x: Sides) -> Shown
    ensures { result ≡ shown_image text.now (ends_in x) }
{
    match read_job(text) {
        Ok(j) => show(j.head.n, one_step::image(j, Ends::from(x))),
        Err(r) => show(0, Err(r)),
    }
}

#[unsafe(no_mangle)]
pub extern "C" fn floodrafter_decide(n: usize, x: Sides, k: Sides) -> Moved
    ensures { result ≡ moved_by (gives_move n (ends_in x) (ends_in k)) }
{
    told(one_step::decide(n, Ends::from(x), Ends::from(k)))
}
