// How a call ended, and the exit status that says so.
ghost use Rattle.std.specs.Prelude.{◌≡◌};
ghost use Rattle.std.specs.Process.{exit_status};
ghost use Rattle.streams.specs.Statuses.{status_of};

use std::io;
use std::io::Error;
use std::process::ExitCode;

#[derive(Clone, Copy)]
pub enum Outcome {
    Answered,
    Fault,
    // Told already: a wrong call, or requests that are not framed as they should be.
    NotRun,
    // What the system refused.
    Unread(Error),
    Unwritten(Error),
}

impl From<Outcome> for u8 {
    ghost from_gives = { λ outcome status. status ≡ status_of outcome };

    fn from(outcome: Outcome) -> u8 {
        match outcome {
            Outcome::Answered => 0,
            Outcome::Fault => 1,
            Outcome::NotRun | Outcome::Unread(_) | Outcome::Unwritten(_) => 2,
        }
    }
}

pub fn hand_over(outcome: Outcome) -> ExitCode
    ensures { exit_status result ≡ status_of outcome }
{
    ExitCode::from(u8::from(outcome))
}

// Where all that was to be written is, or is not.
pub fn written(whole: io::Result<()>, outcome: Outcome) -> Outcome {
    match whole {
        Ok(()) => outcome,
        Err(e) => Outcome::Unwritten(e),
    }
}
