// A line of the system, of the kind that the lines before it name.
ghost use Rattle.std.specs.Prelude.{◌≡◌, ◌<◌};
ghost use Rattle.sizes.specs.Sizes.{n_max};
ghost use Rattle.jobs.specs.declared.JobLine.{JobLine};
ghost use Rattle.job_form.specs.JobForm.{after_system};
ghost use Rattle.next_line.specs.State.{line_read};
ghost use Rattle.next_line.specs.Limits.{LineReady};

use crate::Read;
use crate::state::{kind_of, place_of};
use faults::Fault;
use jobs::{JobLine, Kind, Row};
use list_read::numbers::row_line;
use list_read::system::{equation_line, sided_line};
use sizes::TEXT;

// What comes after line i.
#[tactic(auto, unfolding(job_form::specs::JobForm::after_system))]
fn after_system(i: usize, n: usize) -> JobLine
    requires { i < n_max }
    ensures { result ≡ after_system i n }
{
    if i + 1 < n {
        JobLine::System(i + 1)
    } else {
        JobLine::End
    }
}

// "A `poly` job has `eq` lines", "A `linear` job has `row` lines of n + 1 numbers, the right side last", "an `eigen`
// job has `row` lines of n"
pub fn system_taken(r: Read, i: usize, line: &[u8; TEXT]) -> Result<Read, Fault>
    requires { LineReady r line.now × (i < n_max) }
    ensures { result ≡ line_read r (JobLine.System i) line.now }
{
    let mut s = r;
    match kind_of(r.kind) {
        Kind::Poly => s.eqs[i] = equation_line(line, 0, r.n)?.value,
        Kind::Linear => {
            let l = sided_line(line, 0, r.n)?.value;
            let at = l.row;
            s.rows[i] = Row { at };
            s.right[i] = l.side;
        }
        Kind::Eigen => {
            let at = row_line(line, 0, r.n)?.value;
            s.rows[i] = Row { at };
        }
    }
    s.next = place_of(after_system(i, r.n));
    Ok(s)
}
