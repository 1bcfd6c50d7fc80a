// What is wrong with a line that its reader refuses: the reader's own functions say where it stops, and the bytes there
// what it met.
#![tactic(auto)]

pub mod forms;
pub mod keys;
mod numbers;
pub mod places;
pub mod spelling;
mod terms;
pub mod values;

// The keys of both texts.
#[derive(Clone, Copy, PartialEq, Eq)]
pub enum Key {
    Job,
    Kind,
    Unknowns,
    Pin,
    Lo,
    Hi,
    Inv,
    Steps,
    Eq,
    Row,
    Visit,
    Verdict,
}

// What a line must be: so many numbers after a key, the right side last; terms with so many exponents; a pin up to
// this one. PinOrLo is the line after an eigen job's n where neither key stands, Unpinned the low ends of another job.
#[derive(Clone, Copy)]
pub enum Form {
    Number,
    Kind,
    Unknowns,
    Pin(usize),
    PinOrLo(usize, usize),
    Unpinned(usize),
    Numbers(Key, usize),
    Sided(usize),
    Terms(usize),
    Steps,
    Visit,
    Verdict,
    Low,
    Nothing,
}

// A number by its place in the line, counted from 1.
#[derive(Clone, Copy)]
pub enum Field {
    Only,
    Number(usize),
    Coefficient(usize),
}

// What is wrong with a number's spelling.
#[derive(Clone, Copy)]
pub enum Wrong {
    Missing,
    MinusZero,
    BareMinus,
    Plus,
    Comma,
    LeadingZero,
    LongDigits,
    Point,
    Other,
}

// What is wrong with a term's spelling, its coefficient aside; so many exponents are found.
#[derive(Clone, Copy)]
pub enum WrongTerm {
    NoExponents,
    Exponents(usize),
    After,
}

// What is wrong with a line, whatever it must be.
#[derive(Clone, Copy)]
pub enum LineSlip {
    Extra,
    NoFeed,
    Return,
    Blank,
    Pin,
}

// How a line is unlike what it must be.
#[derive(Clone, Copy)]
pub enum Unlike {
    Gone,
    Hollow,
    Capital,
    NoKey,
    Word,
    Digit,
}

// Fault 2. Terms are counted from 1; what is expected comes before what is found.
#[derive(Clone, Copy)]
pub enum Misspelling {
    Empty,
    OrderMark,
    Line(LineSlip),
    Unlike(Unlike),
    OtherKey(Key, Key),
    NeitherKey(Key),
    Number(Field, Wrong),
    Count(usize, usize),
    Term(usize, WrongTerm),
}

// Fault 4: the number and its place.
#[derive(Clone, Copy)]
pub enum Far {
    Job(i64),
    Visit(i64),
    End(usize, i64),
    Entry(usize, i64),
    Coefficient(usize, i64),
}

// Fault 5: the unknown, counted from 1, its low end and its high end.
#[derive(Clone, Copy)]
pub struct Crossing {
    pub unknown: usize,
    pub low: i64,
    pub high: i64,
}

// Fault 6. Terms are named by their places, counted from 1; two of them stand one after the other.
#[derive(Clone, Copy)]
pub enum TermSlip {
    Many(usize),
    Zero(usize),
    Degree(usize, u64),
    Same(usize, usize),
    Order(usize, usize),
}

// Fault 9: the last coordinate, which is pinned without a line, or a pin that does not lie from 1 to this one.
#[derive(Clone, Copy)]
pub enum PinSlip {
    Last,
    Out(usize),
}

// A line that is wrongly spelled: its number, the unknowns, what it must be and what is wrong.
#[derive(Clone, Copy)]
pub struct Spelled {
    pub line: u64,
    pub n: usize,
    pub form: Form,
    pub slip: Misspelling,
}

// Faults 13 to 16: of a table of rooms, and of no text.
#[derive(Clone, Copy)]
pub enum RoomSlip {
    Full,
    Visits,
    NotOpen,
    Table,
}

// A fault with what its sentence tells: of a number, two ends or a term which one it is, where that is found.
#[derive(Clone, Copy)]
pub enum Slip {
    Long,
    Spelled(Spelled),
    Unknowns(usize),
    Beyond(Option<Far>),
    Crossed(Option<Crossing>),
    Terms(Option<TermSlip>),
    Short,
    Steps(i64),
    Pin(i64, PinSlip),
    Room(RoomSlip),
}
