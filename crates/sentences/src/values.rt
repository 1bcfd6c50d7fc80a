// The sentences of faults 4, 5 and 6.
ghost use Rattle.std.specs.Prelude.{◌+◌, ◌≤◌, length};
ghost use Rattle.phrases.specs.Says.{Says, sentence_max, words_most, range_most};
ghost use Rattle.sentences.specs.Sentences.{range_words, far_not, beyond_words, far_words, crossing_words};
ghost use Rattle.sentences.specs.Sentences.{crossed_words, count_far_words, many_words, zero_words, degree_words};
ghost use Rattle.sentences.specs.Sentences.{same_words, order_words, term_words};

use phrases::{put_count, put_value, say, tell, tell_first};
use sizes::{DEGREE, END, ENTRY, NUMBER, TERMS, VISIT};
use slips::{Crossing, Far, TermSlip};

// From -m to m.
fn put_range(out: &mut [u8], at: usize, words: &[u8], m: u64) -> usize
    requires { (at + range_most ≤ sentence_max) × (length words.now ≤ words_most) }
    ensures { Says range_most out.old out.new at result (range_words words.now m) }
{
    let a = say(out, at, words);
    let b = tell(out, a, b" lie from -", m, b" to ");
    put_count(out, b, m)
}

fn put_far_not(out: &mut [u8], field: &[u8], k: usize, v: i64, words: &[u8], m: u64) -> usize
    requires { (length field.now ≤ words_most) × (length words.now ≤ words_most) }
    ensures { Says sentence_max out.old out.new 0 result
        (far_not field.now k v words.now m) }
{
    let a = tell(out, 0, field, k as u64, b" is ");
    let b = put_value(out, a, v);
    put_range(out, b, words, m)
}

// A count that is none from 0 to its limit.
pub fn put_count_far(out: &mut [u8], words: &[u8], v: i64, most: u64) -> usize
    requires { length words.now ≤ words_most }
    ensures { Says sentence_max out.old out.new 0 result
        (count_far_words words.now v most) }
{
    let a = say(out, 0, words);
    let b = put_value(out, a, v);
    tell(out, b, b": it lies from 0 to ", most, b"")
}

fn put_beyond(out: &mut [u8], far: Far) -> usize
    ensures { Says sentence_max out.old out.new 0 result (beyond_words far) }
{
    match far {
        Far::Job(v) => put_count_far(out, b"the job's number is ", v, NUMBER),
        Far::Visit(v) => put_count_far(out, b"the visit's number is ", v, VISIT),
        Far::End(k, v) => put_far_not(out, b"number ", k, v, b": ends", END as u64),
        Far::Entry(k, v) => put_far_not(out, b"number ", k, v, b": entries", ENTRY as u64),
        Far::Coefficient(k, v) => put_far_not(
            out,
            b"the coefficient of term ",
            k,
            v,
            b": coefficients",
            ENTRY as u64,
        ),
    }
}

#[tactic(auto, using(phrases::proofs::Says::says_as), unfolding(crate::specs::Sentences::far_words))]
pub fn put_far(out: &mut [u8], far: Option<Far>) -> usize
    ensures { Says sentence_max out.old out.new 0 result (far_words far) }
{
    match far {
        Some(far) => put_beyond(out, far),
        None => put_range(out, 0, b"coefficients and entries", ENTRY as u64),
    }
}

fn put_crossing(out: &mut [u8], at: Crossing) -> usize
    ensures { Says sentence_max out.old out.new 0 result (crossing_words at) }
{
    let a = tell(out, 0, b"unknown ", at.unknown as u64, b": the high end ");
    let b = put_value(out, a, at.high);
    let c = say(out, b, b" is below the low end ");
    put_value(out, c, at.low)
}

#[tactic(auto, using(phrases::proofs::Says::says_as), unfolding(crate::specs::Sentences::crossed_words))]
pub fn put_crossed(out: &mut [u8], at: Option<Crossing>) -> usize
    ensures { Says sentence_max out.old out.new 0 result (crossed_words at) }
{
    match at {
        Some(c) => put_crossing(out, c),
        None => say(out, 0, b"no high end may be below its low end"),
    }
}

fn put_many(out: &mut [u8], count: usize) -> usize
    ensures { Says sentence_max out.old out.new 0 result (many_words count) }
{
    let a = tell(
        out,
        0,
        b"an equation has at most ",
        TERMS as u64,
        b" terms, this one has ",
    );
    put_count(out, a, count as u64)
}

fn put_zero(out: &mut [u8], k: usize) -> usize
    ensures { Says sentence_max out.old out.new 0 result (zero_words k) }
{
    tell(
        out,
        0,
        b"the coefficient of term ",
        k as u64,
        b" is 0: leave the term out",
    )
}

fn put_degree(out: &mut [u8], k: usize, d: u64) -> usize
    ensures { Says sentence_max out.old out.new 0 result (degree_words k d) }
{
    let a = tell(out, 0, b"the exponents of term ", k as u64, b" add up to ");
    let b = tell_first(out, a, d, b", at most ");
    tell_first(out, b, DEGREE, b" may be")
}

fn put_same(out: &mut [u8], j: usize, k: usize) -> usize
    ensures { Says sentence_max out.old out.new 0 result (same_words j k) }
{
    let a = tell(out, 0, b"terms ", j as u64, b" and ");
    tell_first(
        out,
        a,
        k as u64,
        b" have the same exponents: make them one term",
    )
}

fn put_order(out: &mut [u8], j: usize, k: usize) -> usize
    ensures { Says sentence_max out.old out.new 0 result (order_words j k) }
{
    let a = tell(out, 0, b"term ", k as u64, b" must stand before term ");
    tell_first(
        out,
        a,
        j as u64,
        b": terms stand in falling order of their exponents",
    )
}

#[tactic(auto, using(phrases::proofs::Says::says_as), unfolding(crate::specs::Sentences::term_words))]
pub fn put_terms(out: &mut [u8], slip: Option<TermSlip>) -> usize
    ensures { Says sentence_max out.old out.new 0 result (term_words slip) }
{
    match slip {
        Some(TermSlip::Many(count)) => put_many(out, count),
        Some(TermSlip::Zero(k)) => put_zero(out, k),
        Some(TermSlip::Degree(k, d)) => put_degree(out, k, d),
        Some(TermSlip::Same(j, k)) => put_same(out, j, k),
        Some(TermSlip::Order(j, k)) => put_order(out, j, k),
        None => say(
            out,
            0,
            b"terms stand in strictly falling order of their exponents",
        ),
    }
}
