// What sentences beside a fault are made of: counts, keys, what a line must be, what is wrong with a number.
#![tactic(auto)]

ghost use Rattle.std.specs.Prelude.{◌≡◌, ◌+◌, ◌≤◌, [], length};
ghost use Rattle.slips.specs.declared.Form.{Form};
ghost use Rattle.writing.specs.Wrote.{place_max};
ghost use Rattle.phrases.specs.Says.{Says, key_most, value_most, field_most, wrong_most, form_most, expected_most};
ghost use Rattle.slips.specs.Keys.{key_words};
ghost use Rattle.phrases.specs.Words.{count_digits, count_words, value_words, counted};
ghost use Rattle.phrases.specs.Words.{several_words, numbers_words, most_words, pin_words, pin_range_words};
ghost use Rattle.phrases.specs.Words.{form_words, expected_words, field_words, wrong_words};
ghost use Rattle.phrases.specs.Says.{sentence_max, place_most, noun_most, some_most, several_most, pin_most};
ghost use Rattle.phrases.specs.Words.{some_words};

use digits::DIGITS;
use sizes::NUMBER;
use slips::keys::key_bytes;
use slips::{Field, Form, Key, Wrong};
use term_checks::ranges::within;
use writing::{put_bytes, put_magnitude, put_number};

// The digits of a 64-bit number.
const COUNT: usize = 20;

// Words.
pub fn say(out: &mut [u8], at: usize, words: &[u8]) -> usize
    requires { at + length words.now ≤ place_max }
    ensures { Says (length words.now) out.old out.new at result words.now }
{
    put_bytes(out, at, words)
}

// Words, a count, words.
pub fn tell(out: &mut [u8], at: usize, before: &[u8], m: u64, after: &[u8]) -> usize
    requires { (at ≤ place_most) × (length before.now ≤ sentence_max) × (length after.now ≤ sentence_max) }
    ensures { Says (length before.now + count_digits + length after.now)
        out.old out.new at result (counted before.now m after.now) }
{
    let a = say(out, at, before);
    let b = put_magnitude(out, a, m, COUNT);
    say(out, b, after)
}

pub fn put_count(out: &mut [u8], at: usize, m: u64) -> usize
    requires { at ≤ place_most }
    ensures { Says count_digits out.old out.new at result (count_words m) }
{
    put_magnitude(out, at, m, COUNT)
}

// A count, words.
pub fn tell_first(out: &mut [u8], at: usize, m: u64, after: &[u8]) -> usize
    requires { (at ≤ place_most) × (length after.now ≤ sentence_max) }
    ensures { Says (count_digits + length after.now) out.old out.new at result
        (counted [] m after.now) }
{
    let a = put_count(out, at, m);
    say(out, a, after)
}

// So many of a thing, in the singular or in the plural.
pub fn tell_some(out: &mut [u8], at: usize, m: u64, one: &[u8], many: &[u8]) -> usize
    requires { (at ≤ place_most) × (length one.now ≤ noun_most) × (length many.now ≤ noun_most) }
    ensures { Says some_most out.old out.new at result
        (some_words m one.now many.now) }
{
    tell_first(out, at, m, if m == 1 { one } else { many })
}

// A number of a text. (It has nine digits at most: the test tells the prover so.)
pub fn put_value(out: &mut [u8], at: usize, v: i64) -> usize
    requires { at ≤ place_most }
    ensures { Says value_most out.old out.new at result (value_words v) }
{
    if within(v, NUMBER as i64) {
        put_number(out, at, v, DIGITS)
    } else {
        at
    }
}

pub fn put_key(out: &mut [u8], at: usize, key: Key) -> usize
    requires { at ≤ place_most }
    ensures { Says key_most out.old out.new at result (key_words key) }
{
    say(out, at, key_bytes(key))
}

// A key and so many numbers.
fn put_several(out: &mut [u8], at: usize, key: Key, m: u64) -> usize
    requires { at + several_most ≤ place_most }
    ensures { Says several_most out.old out.new at result (several_words key m) }
{
    let a = put_key(out, at, key);
    tell(out, a, b" and ", m, b" numbers joined by commas")
}

fn put_numbers(out: &mut [u8], at: usize, key: Key, m: usize) -> usize
    requires { at ≤ sentence_max }
    ensures { Says form_most out.old out.new at result (numbers_words key m) }
{
    if m == 1 {
        let a = put_key(out, at, key);
        say(out, a, b" and one number")
    } else {
        put_several(out, at, key, m as u64)
    }
}

// Up to so many: these words where only 1 is left, and otherwise those with the number after them.
fn tell_most(out: &mut [u8], at: usize, most: usize, only: &[u8], words: &[u8]) -> usize
    requires { (at ≤ sentence_max) × (length only.now ≤ pin_most) × (length words.now + count_digits ≤ pin_most) }
    ensures { Says pin_most out.old out.new at result (most_words most only.now words.now) }
{
    if most == 1 {
        say(out, at, only)
    } else {
        tell(out, at, words, most as u64, b"")
    }
}

fn put_pin(out: &mut [u8], at: usize, most: usize) -> usize
    requires { at ≤ sentence_max }
    ensures { Says pin_most out.old out.new at result (pin_words most) }
{
    tell_most(out, at, most, b"pin=1", b"pin= and a number from 1 to ")
}

// Where a pin lies.
pub fn put_pin_range(out: &mut [u8], at: usize, most: usize) -> usize
    requires { at ≤ sentence_max }
    ensures { Says pin_most out.old out.new at result (pin_range_words most) }
{
    tell_most(
        out,
        at,
        most,
        b": only 1 can stand here",
        b": it lies from 1 to ",
    )
}

fn put_pin_or_lo(out: &mut [u8], at: usize, most: usize, m: usize) -> usize
    requires { at ≤ sentence_max }
    ensures { Says form_most out.old out.new at result (form_words (Form.PinOrLo most m)) }
{
    let a = put_pin(out, at, most);
    let b = say(out, a, b", or ");
    put_several(out, b, Key::Lo, m as u64)
}

fn put_sided(out: &mut [u8], at: usize, m: usize) -> usize
    requires { at ≤ sentence_max }
    ensures { Says form_most out.old out.new at result (form_words (Form.Sided m)) }
{
    let after = b" numbers joined by commas, the right side last";
    tell(out, at, b"row= and ", m as u64, after)
}

fn put_terms_form(out: &mut [u8], at: usize, n: usize) -> usize
    requires { at ≤ sentence_max }
    ensures { Says form_most out.old out.new at result (form_words (Form.Terms n)) }
{
    let before = b"eq= and terms coefficient:exponents joined by commas, exponent digits a term: ";
    tell(out, at, before, n as u64, b"")
}

// What a line must be.
#[tactic(auto, using(crate::proofs::Says::says_as))]
fn put_form(out: &mut [u8], at: usize, form: Form) -> usize
    requires { at ≤ sentence_max }
    ensures { Says form_most out.old out.new at result (form_words form) }
{
    match form {
        Form::Number => say(out, at, b"job= and the job's number"),
        Form::Kind => say(out, at, b"kind=poly, kind=linear or kind=eigen"),
        Form::Unknowns => say(out, at, b"n= and one digit"),
        Form::Pin(most) => put_pin(out, at, most),
        Form::PinOrLo(most, m) => put_pin_or_lo(out, at, most, m),
        Form::Unpinned(m) => put_numbers(out, at, Key::Lo, m),
        Form::Numbers(key, m) => put_numbers(out, at, key, m),
        Form::Sided(m) => put_sided(out, at, m),
        Form::Terms(n) => put_terms_form(out, at, n),
        Form::Steps => say(out, at, b"steps= and a number"),
        Form::Visit => say(out, at, b"visit= and the visit's number"),
        Form::Verdict => say(
            out,
            at,
            b"verdict=none, verdict=unique, verdict=stalled or verdict=spent",
        ),
        Form::Low => say(out, at, b"lo= and numbers joined by commas"),
        Form::Nothing => say(out, at, b"nothing after the last line"),
    }
}

pub fn put_expected(out: &mut [u8], at: usize, form: Form) -> usize
    requires { at + expected_most ≤ sentence_max }
    ensures { Says expected_most out.old out.new at result (expected_words form) }
{
    let a = say(out, at, b"; expected ");
    put_form(out, a, form)
}

#[tactic(auto, using(crate::proofs::Says::says_as))]
pub fn put_field(out: &mut [u8], at: usize, field: Field) -> usize
    requires { at ≤ sentence_max }
    ensures { Says field_most out.old out.new at result (field_words field) }
{
    match field {
        Field::Only => say(out, at, b"the number"),
        Field::Number(k) => tell(out, at, b"number ", k as u64, b""),
        Field::Coefficient(k) => tell(out, at, b"the coefficient of term ", k as u64, b""),
    }
}

fn wrong_bytes(wrong: Wrong) -> &'static [u8]
    ensures { result.now ≡ wrong_words wrong }
{
    match wrong {
        Wrong::Missing => b" is missing",
        Wrong::MinusZero => b" has a zero right after its minus: write 0 with no minus",
        Wrong::BareMinus => b" has no digit after its minus",
        Wrong::Plus => b" has a plus sign: write it with none",
        Wrong::Comma => b" is followed by a comma, and one number is all",
        Wrong::LeadingZero => b" begins with a zero and goes on: write it without that zero",
        Wrong::LongDigits => b" has over 9 digits",
        Wrong::Point => b" has a decimal point: numbers are marks, 1.5 is 98304",
        Wrong::Other => b" has a character that is no digit",
    }
}

pub fn put_wrong(out: &mut [u8], at: usize, wrong: Wrong) -> usize
    requires { at ≤ sentence_max }
    ensures { Says wrong_most out.old out.new at result (wrong_words wrong) }
{
    say(out, at, wrong_bytes(wrong))
}
