// The lines of the system where their faults alone are asked for: what they say is not kept. It stands beside
// `system` for speed (docs/DECISIONS.md, "A status alone"): one loop over both, by a trait of what is kept, is longer.
ghost use Rattle.std.specs.Prelude.{◌≤◌, length};
ghost use Rattle.job_read.specs.Parts.{Whole, LineFrom, SystemEnds};

use crate::told;
use faults::{Checked, Fault};
use jobs::{Head, JobLine, Kind};
use list_read::numbers::row_line;
use list_read::system::{equation_line, sided_line};

// A line of the kind that the head names: the place after it.
fn line_end(text: &[u8], from: usize, head: Head) -> Result<usize, Fault>
    requires { (from ≤ length text.now) × Whole head }
    ensures { LineFrom text.now from head result }
{
    let n = head.n;
    match head.kind {
        Kind::Poly => Ok(equation_line(text, from, n)?.next),
        Kind::Linear => Ok(sided_line(text, from, n)?.next),
        Kind::Eigen => Ok(row_line(text, from, n)?.next),
    }
}

pub fn system_end(text: &[u8], from: usize, head: Head) -> Checked<usize>
    requires { (from ≤ length text.now) × Whole head }
    ensures { SystemEnds text.now from head result }
{
    let mut a = from;
    for i in 0..head.n {
        a = told(line_end(text, a, head), JobLine::System(i), head)?;
    }
    Ok(a)
}
