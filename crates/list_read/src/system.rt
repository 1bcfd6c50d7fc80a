// The lines of a system.
ghost use Rattle.std.specs.Prelude.{◌≡◌, ◌≤◌, length};
ghost use Rattle.sizes.specs.Sizes.{n_max};
ghost use Rattle.lines.specs.Lines.{sided_of, equation_of};
ghost use Rattle.line_read.specs.At.{said, onward, line_from};

use crate::numbers::numbers;
use crate::places::cells_of;
use checks::job::sided_check;
use faults::{Fault, bad_unless};
use jobs::Equation;
use lines::Sided;
use scan::At;
use term_checks::terms::good_terms;
use term_read::{bounded, terms_at};
use text::PLACES;

// The row and the right side of a linear job.
pub fn sided_line(text: &[u8], from: usize, n: usize) -> Result<At<Sided>, Fault>
    requires { (from ≤ length text.now) × (n ≤ n_max) }
    ensures { result ≡ line_from (said (sided_of n) text.now from) (onward text.now from) }
{
    let mut vals = [0; PLACES];
    let next = numbers(text, from, b"row=", n + 1, &mut vals)?;
    let row = cells_of(&vals, 0, n);
    let side = vals[n];
    sided_check(n, row, side)?;
    Ok(At {
        value: Sided { row, side },
        next,
    })
}

// Where no coefficient is beyond its size, the check of an equation is that of its terms.
pub fn equation_line(text: &[u8], from: usize, n: usize) -> Result<At<Equation>, Fault>
    requires { (from ≤ length text.now) × (n ≤ n_max) }
    ensures { result ≡ line_from (said (equation_of n) text.now from) (onward text.now from) }
{
    let few = bounded(n);
    let Ok(terms) = terms_at(text, from, few) else {
        return Err(Fault::Spelling);
    };
    if terms.value.far {
        return Err(Fault::Beyond);
    }
    let equation = terms.value.equation;
    bad_unless(good_terms(equation, few), Fault::Terms)?;
    Ok(At {
        value: equation,
        next: terms.next,
    })
}
