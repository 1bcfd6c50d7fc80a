// The lines of the system: n of the kind that the head names.
ghost use Rattle.std.specs.Prelude.{◌≡◌, ◌≤◌, ◌<◌, length};
ghost use Rattle.job_read.specs.Parts.{Whole, LineAdds, SystemFrom};

use crate::told;
use faults::{Checked, Fault};
use jobs::zero::zero_body;
use jobs::{Body, Head, JobLine, Kind, Row};
use list_read::numbers::row_line;
use list_read::system::{equation_line, sided_line};
use scan::At;

// "A `poly` job has `eq` lines", "A `linear` job has `row` lines of n + 1 numbers, the right side last", "an `eigen`
// job has `row` lines of n": line i goes into the system, and the place after it is told.
fn line_at(
    text: &[u8],
    from: usize,
    head: Head,
    i: usize,
    system: &mut Body,
) -> Result<usize, Fault>
    requires { (from ≤ length text.now) × Whole head × (i < head.n) }
    ensures { LineAdds text.now from head i system.old system.new result }
{
    match head.kind {
        Kind::Poly => {
            let l = equation_line(text, from, head.n)?;
            system.eqs[i] = l.value;
            Ok(l.next)
        }
        Kind::Linear => {
            let l = sided_line(text, from, head.n)?;
            let at = l.value.row;
            system.rows[i] = Row { at };
            system.right[i] = l.value.side;
            Ok(l.next)
        }
        Kind::Eigen => {
            let l = row_line(text, from, head.n)?;
            let at = l.value;
            system.rows[i] = Row { at };
            Ok(l.next)
        }
    }
}

pub fn system_at(text: &[u8], from: usize, head: Head) -> Checked<At<Body>>
    requires { (from ≤ length text.now) × Whole head }
    ensures { SystemFrom text.now from head result }
{
    let mut system = zero_body();
    let mut a = from;
    for i in 0..head.n {
        let next = line_at(text, a, head, i, &mut system);
        a = told(next, JobLine::System(i), head)?;
    }
    Ok(At {
        value: system,
        next: a,
    })
}
