// The commands, and what is said of a call that names none of them.
use crate::help;
use people::How;
use requests::Op;
use std::io::Write;
use streams::outcomes::Outcome;
use streams::say;

// What reads a FILE.
#[derive(Clone, Copy)]
pub enum Work {
    One(How),
    Halve(i64),
    Batch,
}

#[derive(Clone, Copy)]
pub enum Command {
    Read(Work),
    // A depth stands before the FILE.
    Halve,
    Help,
    Version,
}

// The one table of the commands.
pub fn command_of(word: &[u8]) -> Option<Command> {
    match word {
        b"solve" => Some(Command::Read(Work::One(How::Reply(Op::Solve)))),
        b"show" => Some(Command::Read(Work::One(How::Show))),
        b"image" => Some(Command::Read(Work::One(How::Reply(Op::Image)))),
        b"step" => Some(Command::Read(Work::One(How::Step))),
        b"halve" => Some(Command::Halve),
        b"job" => Some(Command::Read(Work::One(How::Reply(Op::Job)))),
        b"result" => Some(Command::Read(Work::One(How::Reply(Op::Result)))),
        b"batch" => Some(Command::Read(Work::Batch)),
        b"help" | b"--help" | b"-h" => Some(Command::Help),
        b"version" | b"--version" => Some(Command::Version),
        _ => None,
    }
}

// The help stands behind what is said of a wrong call.
pub fn wrong_call<E: Write>(err: &mut E) -> Outcome {
    let _ = help::commands(err);
    Outcome::NotRun
}

fn wrong_word<E: Write>(err: &mut E, what: &[u8], word: &[u8]) -> Outcome {
    say(err, what);
    say(err, word);
    say(err, b"'\n");
    wrong_call(err)
}

pub fn unknown<E: Write>(err: &mut E, word: &[u8]) -> Outcome {
    wrong_word(err, b"floodrafter: there is no command '", word)
}

pub fn no_depth<E: Write>(err: &mut E, word: &[u8]) -> Outcome {
    wrong_word(
        err,
        b"floodrafter: expected a depth after halve, a whole number, not '",
        word,
    )
}

pub fn too_many<E: Write>(err: &mut E) -> Outcome {
    say(err, b"floodrafter: too many arguments\n");
    wrong_call(err)
}
