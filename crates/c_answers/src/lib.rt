// What C is answered: three numbers.
#![tactic(auto)]

ghost use Rattle.std.specs.Prelude.{◌≡◌};
ghost use Rattle.c_answers.specs.Numbers.{numbers_of, checked};

use faults::Checked;

// `floodrafter_answer` of the header.
#[repr(C)]
#[derive(Clone, Copy)]
pub struct Answer {
    pub fault: u64,
    pub line: u64,
    pub len: usize,
}

pub fn numbers(written: Checked<usize>) -> Answer
    ensures { result ≡ numbers_of written }
{
    match written {
        Ok(len) => Answer {
            fault: 0,
            line: 0,
            len,
        },
        Err(r) => Answer {
            fault: u64::from(r.fault),
            line: r.line,
            len: 0,
        },
    }
}

// A check writes nothing.
pub fn checked_numbers(status: Checked<()>) -> Answer
    ensures { result ≡ checked status }
{
    numbers(status.map(|()| 0))
}
