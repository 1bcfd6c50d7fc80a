// The program floodrafter: texts in, texts out, over the proved desk.
#![tactic(auto)]

mod commands;
mod help;
mod refused;
mod words;

use arguments::long_number;
use commands::{Command, Work, command_of, no_depth, too_many, unknown, wrong_call};
use people::DEPTH_PLACE;
use refused::{not_text, say_refused, too_long};
use std::io::{Read, Stderr, Stdout};
use std::process::ExitCode;
use std::{fs, io};
use streams::Whole;
use streams::outcomes::{Outcome, hand_over, written};
use streams::standard::{Waiting, errors, input, output};
use words::{WORD, count, whole_word, word_at};

fn out(rt: &HostRuntime) -> Whole<Waiting<'_, Stdout, HostRuntime>> {
    Whole(output(rt, rt.stdout()))
}

fn err(rt: &HostRuntime) -> Whole<Waiting<'_, Stderr, HostRuntime>> {
    Whole(errors(rt, rt.stderr()))
}

// What the system refused is told by the name of what it was refused of.
fn told(rt: &HostRuntime, outcome: Outcome, name: &[u8]) -> Outcome {
    match outcome {
        Outcome::Answered | Outcome::Fault | Outcome::NotRun => {}
        Outcome::Unread(e) => say_refused(&mut err(rt), name, &e),
        Outcome::Unwritten(e) => say_refused(&mut err(rt), b"standard output", &e),
    }
    outcome
}

fn halve<R: Read>(rt: &HostRuntime, reader: &mut R, depth: i64, name: &[u8]) -> Outcome {
    let mut word = [0u8; WORD];
    let n = word_at(rt, DEPTH_PLACE, &mut word);
    people::halve(reader, &mut out(rt), &mut err(rt), depth, &word[..n], name)
}

fn answer<R: Read>(rt: &HostRuntime, work: Work, reader: &mut R, name: &[u8]) -> Outcome {
    let outcome = match work {
        Work::One(how) => people::one(reader, &mut out(rt), &mut err(rt), how, name),
        Work::Halve(depth) => halve(rt, reader, depth, name),
        Work::Batch => batch::all(reader, &mut out(rt)),
    };
    told(rt, outcome, name)
}

fn on_input(rt: &HostRuntime, work: Work) -> Outcome {
    let mut reader = input(rt, rt.stdin());
    answer(rt, work, &mut reader, b"standard input")
}

fn on_file(rt: &HostRuntime, work: Work, path: &[u8]) -> Outcome {
    let Ok(name) = str::from_utf8(path) else {
        return told(rt, Outcome::Unread(not_text()), path);
    };
    match fs::open(rt, name) {
        Ok(mut file) => answer(rt, work, &mut file, path),
        Err(e) => told(rt, Outcome::Unread(e), path),
    }
}

fn on_argument(rt: &HostRuntime, work: Work, place: usize) -> Outcome {
    let mut path = [0u8; WORD];
    let Ok(n) = whole_word(rt, place, &mut path) else {
        return told(rt, Outcome::Unread(too_long()), b"FILE");
    };
    match &path[..n] {
        b"-" => on_input(rt, work),
        path => on_file(rt, work, path),
    }
}

// FILE is the argument `place`, if there is one.
fn read(rt: &HostRuntime, work: Work, count: usize, place: usize) -> Outcome {
    if count <= place {
        return on_input(rt, work);
    }
    if count - 1 == place {
        return on_argument(rt, work, place);
    }
    too_many(&mut err(rt))
}

fn ask_depth(rt: &HostRuntime, count: usize) -> Outcome {
    let mut word = [0u8; WORD];
    let n = word_at(rt, DEPTH_PLACE, &mut word);
    match long_number(&word[..n]) {
        Some(depth) => read(rt, Work::Halve(depth), count, DEPTH_PLACE + 1),
        None => no_depth(&mut err(rt), &word[..n]),
    }
}

fn shown(rt: &HostRuntime, whole: io::Result<()>) -> Outcome {
    told(rt, written(whole, Outcome::Answered), b"")
}

fn help_on(rt: &HostRuntime, word: &[u8]) -> Outcome {
    match command_of(word) {
        Some(Command::Read(Work::Batch)) => shown(rt, help::packets(&mut out(rt))),
        Some(_) => shown(rt, help::commands(&mut out(rt))),
        None => unknown(&mut err(rt), word),
    }
}

fn show_help(rt: &HostRuntime, count: usize) -> Outcome {
    if count == 2 {
        return shown(rt, help::commands(&mut out(rt)));
    }
    if count == 3 {
        let mut word = [0u8; WORD];
        let n = word_at(rt, 2, &mut word);
        return help_on(rt, &word[..n]);
    }
    too_many(&mut err(rt))
}

fn show_version(rt: &HostRuntime, count: usize) -> Outcome {
    if count == 2 {
        return shown(rt, help::version(&mut out(rt)));
    }
    too_many(&mut err(rt))
}

fn run(rt: &HostRuntime) -> Outcome {
    let count = count(rt);
    if count < 2 {
        return wrong_call(&mut err(rt));
    }
    let mut word = [0u8; WORD];
    let n = word_at(rt, 1, &mut word);
    match command_of(&word[..n]) {
        Some(Command::Read(work)) => read(rt, work, count, 2),
        Some(Command::Halve) => ask_depth(rt, count),
        Some(Command::Help) => show_help(rt, count),
        Some(Command::Version) => show_version(rt, count),
        None => unknown(&mut err(rt), &word[..n]),
    }
}

fn main(rt: HostRuntime) -> ExitCode {
    hand_over(run(&rt))
}
