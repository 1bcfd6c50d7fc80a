// The faults, and what carries one: the check of a line, and what a public operation answers.
#![tactic(auto)]

ghost use Rattle.std.specs.Prelude.{◌≡◌};
ghost use Rattle.faults.specs.Words.{fault_number, fault_of};
ghost use Rattle.faults.specs.Checks.{bad_unless, on_line};
ghost use Rattle.faults.specs.Checked.{refused};

// The faults 1 to 8 of document 01's table, in its order, then those of document 02.
#[derive(Clone, Copy, PartialEq, Eq)]
pub enum Fault {
    LongText,
    Spelling,
    Unknowns,
    Beyond,
    Crossed,
    Terms,
    ShortBuffer,
    Steps,
    Pin,
    Full,
    Visits,
    NotOpen,
    Table,
}

// The last number of those that a text can have.
pub const FAULTS: u64 = 9;

// A fault carries its line, counted from 1, or 0 where no line carries it.
#[derive(Clone, Copy, PartialEq, Eq)]
pub struct Refusal {
    pub fault: Fault,
    pub line: u64,
}

// What a public operation answers: a value, or what refuses it.
pub type Checked<T> = Result<T, Refusal>;

impl From<Fault> for u64 {
    ghost from_gives = { λ f n. n ≡ fault_number f };

    fn from(f: Fault) -> u64 {
        match f {
            Fault::LongText => 1,
            Fault::Spelling => 2,
            Fault::Unknowns => 3,
            Fault::Beyond => 4,
            Fault::Crossed => 5,
            Fault::Terms => 6,
            Fault::ShortBuffer => 7,
            Fault::Steps => 8,
            Fault::Pin => 9,
            Fault::Full => 13,
            Fault::Visits => 14,
            Fault::NotOpen => 15,
            Fault::Table => 16,
        }
    }
}

// The fault of a number; that of a table stands for every other.
impl From<u64> for Fault {
    ghost from_gives = { λ n f. f ≡ fault_of n };

    fn from(number: u64) -> Fault {
        match number {
            1 => Fault::LongText,
            2 => Fault::Spelling,
            3 => Fault::Unknowns,
            4 => Fault::Beyond,
            5 => Fault::Crossed,
            6 => Fault::Terms,
            7 => Fault::ShortBuffer,
            8 => Fault::Steps,
            9 => Fault::Pin,
            13 => Fault::Full,
            14 => Fault::Visits,
            15 => Fault::NotOpen,
            _ => Fault::Table,
        }
    }
}

#[tactic(auto, unfolding(crate::specs::Checks::bad_unless))]
pub fn bad_unless(good: bool, fault: Fault) -> Result<(), Fault>
    ensures { result ≡ bad_unless good fault }
{
    if good { Ok(()) } else { Err(fault) }
}

// Where no line carries it, the line is 0.
pub fn refused<T>(fault: Fault, line: u64) -> Checked<T>
    ensures { result ≡ refused fault line }
{
    Err(Refusal { fault, line })
}

// What a line says or finds, with its number.
#[tactic(auto, unfolding(crate::specs::Checks::on_line))]
pub fn on_line<T>(found: Result<T, Fault>, line: u64) -> Checked<T>
    ensures { result ≡ on_line found line }
{
    found.map_err(|fault| Refusal { fault, line })
}
