// The sentences of fault 2.
ghost use Rattle.std.specs.Prelude.{◌≡◌, ◌≤◌, length};
ghost use Rattle.phrases.specs.Says.{Says, sentence_max, words_most};
ghost use Rattle.sentences.specs.Sentences.{line_slip_said, unlike_said, other_key_words, neither_key_words};
ghost use Rattle.sentences.specs.Sentences.{number_not, count_not, exponents_not, term_not, empty_words, mark_words};
ghost use Rattle.sentences.specs.Sentences.{line_slip_words, unlike_words, wrong_term_words, misspelled_words};

use phrases::{put_expected, put_field, put_key, put_wrong, say, tell, tell_first, tell_some};
use slips::{Field, Form, Key, LineSlip, Misspelling, Spelled, Unlike, Wrong, WrongTerm};

fn put_other_key(out: &mut [u8], line: u64, own: Key, key: Key) -> usize
    ensures { Says sentence_max out.old out.new 0 result (other_key_words line own key) }
{
    let a = tell(out, 0, b"line ", line, b" begins with ");
    let b = put_key(out, a, key);
    let c = say(out, b, b", ");
    let d = put_key(out, c, own);
    say(out, d, b" is expected")
}

fn put_neither_key(out: &mut [u8], line: u64, key: Key) -> usize
    ensures { Says sentence_max out.old out.new 0 result (neither_key_words line key) }
{
    let a = tell(out, 0, b"line ", line, b" begins with ");
    let b = put_key(out, a, key);
    say(out, b, b", pin= or lo= is expected")
}

fn put_number_not(out: &mut [u8], field: Field, wrong: Wrong, form: Form) -> usize
    ensures { Says sentence_max out.old out.new 0 result (number_not field wrong form) }
{
    let a = put_field(out, 0, field);
    let b = put_wrong(out, a, wrong);
    put_expected(out, b, form)
}

fn put_count_not(out: &mut [u8], n: usize, expected: usize, found: usize) -> usize
    ensures { Says sentence_max out.old out.new 0 result (count_not n expected found) }
{
    let a = tell(out, 0, b"n=", n as u64, b": ");
    let b = tell_some(
        out,
        a,
        expected as u64,
        b" number expected, ",
        b" numbers expected, ",
    );
    tell_first(out, b, found as u64, b" found")
}

fn put_exponents_not(out: &mut [u8], n: usize, k: usize, found: usize) -> usize
    ensures { Says sentence_max out.old out.new 0 result (exponents_not n k found) }
{
    let a = tell(out, 0, b"n=", n as u64, b": ");
    let b = tell_some(
        out,
        a,
        n as u64,
        b" exponent expected in term ",
        b" exponents expected in term ",
    );
    let c = tell_first(out, b, k as u64, b", ");
    tell_first(out, c, found as u64, b" found")
}

fn put_term_not(out: &mut [u8], k: usize, words: &[u8], form: Form) -> usize
    requires { length words.now ≤ words_most }
    ensures { Says sentence_max out.old out.new 0 result (term_not k words.now form) }
{
    let a = tell(out, 0, b"term ", k as u64, words);
    put_expected(out, a, form)
}

fn put_empty(out: &mut [u8], form: Form) -> usize
    ensures { Says sentence_max out.old out.new 0 result (empty_words form) }
{
    let a = say(out, 0, b"the text is empty");
    put_expected(out, a, form)
}

fn put_mark(out: &mut [u8]) -> usize
    ensures { Says sentence_max out.old out.new 0 result mark_words }
{
    say(
        out,
        0,
        b"the text begins with a byte order mark: save it as plain text without one",
    )
}

fn line_slip_bytes(slip: LineSlip) -> &'static [u8]
    ensures { result.now ≡ line_slip_said slip }
{
    match slip {
        LineSlip::Extra => b" is one too many: the line before it is the last",
        LineSlip::NoFeed => b" has no line feed: press Enter at its end",
        LineSlip::Return => b" has a carriage return: save with Unix line ends",
        LineSlip::Blank => b" has a blank or a tab: write it with none",
        LineSlip::Pin => b" begins with pin=, lo= is expected: only an eigen job has a pin line",
    }
}

#[tactic(auto, using(phrases::proofs::Says::says_as), unfolding(crate::specs::Sentences::line_slip_words))]
fn put_line_slip(out: &mut [u8], line: u64, slip: LineSlip) -> usize
    ensures { Says sentence_max out.old out.new 0 result (line_slip_words line slip) }
{
    tell(out, 0, b"line ", line, line_slip_bytes(slip))
}

fn unlike_bytes(slip: Unlike) -> &'static [u8]
    ensures { (result.now ≡ unlike_said slip) × (length result.now ≤ words_most) }
{
    match slip {
        Unlike::Gone => b" is missing",
        Unlike::Hollow => b" is empty",
        Unlike::Capital => b" has a capital letter: all are small",
        Unlike::NoKey => b" does not begin with its key",
        Unlike::Word => b" has another word",
        Unlike::Digit => b" has not just one digit",
    }
}

fn put_unlike(out: &mut [u8], line: u64, slip: Unlike, form: Form) -> usize
    ensures { Says sentence_max out.old out.new 0 result (unlike_words line slip form) }
{
    let a = tell(out, 0, b"line ", line, unlike_bytes(slip));
    put_expected(out, a, form)
}

#[tactic(auto, using(phrases::proofs::Says::says_as), unfolding(crate::specs::Sentences::wrong_term_words))]
fn put_wrong_term(out: &mut [u8], n: usize, k: usize, wrong: WrongTerm, form: Form) -> usize
    ensures { Says sentence_max out.old out.new 0 result (wrong_term_words n k wrong form) }
{
    match wrong {
        WrongTerm::NoExponents => put_term_not(out, k, b" has no exponents", form),
        WrongTerm::Exponents(found) => put_exponents_not(out, n, k, found),
        WrongTerm::After => put_term_not(out, k, b" is not followed by a comma", form),
    }
}

#[tactic(auto, using(phrases::proofs::Says::says_as), unfolding(crate::specs::Sentences::misspelled_words))]
pub fn put_misspelled(out: &mut [u8], s: Spelled) -> usize
    ensures { Says sentence_max out.old out.new 0 result (misspelled_words s s.slip) }
{
    let form = s.form;
    match s.slip {
        Misspelling::Empty => put_empty(out, form),
        Misspelling::OrderMark => put_mark(out),
        Misspelling::Line(it) => put_line_slip(out, s.line, it),
        Misspelling::Unlike(it) => put_unlike(out, s.line, it, form),
        Misspelling::OtherKey(own, key) => put_other_key(out, s.line, own, key),
        Misspelling::NeitherKey(key) => put_neither_key(out, s.line, key),
        Misspelling::Number(field, wrong) => put_number_not(out, field, wrong, form),
        Misspelling::Count(expected, found) => put_count_not(out, s.n, expected, found),
        Misspelling::Term(k, wrong) => put_wrong_term(out, s.n, k, wrong, form),
    }
}
