// The sentence beside the fault of a text, on standard error.
ghost use Rattle.std.specs.Prelude.{◌≤◌};
ghost use Rattle.phrases.specs.Says.{sentence_max};

use faults::Refusal;
use sentences::{SENTENCE, explain_job, explain_result};
use sizes::DEPTH;
use std::io::Write;
use streams::outcomes::Outcome;
use streams::{say, say_number};

// A text, a result's or a job's, with the name that it was asked by and the depth as it was typed, if it was.
#[derive(Clone, Copy)]
pub struct Asked<'a> {
    pub name: &'a [u8],
    pub typed: &'a [u8],
    pub text: &'a [u8],
    pub res: bool,
}

impl Asked<'_> {
    fn explain(&self, out: &mut [u8]) -> usize
        ensures { result ≤ sentence_max }
    {
        if self.res {
            explain_result(self.text, out)
        } else {
            explain_job(self.text, out)
        }
    }

    fn say_depth<E: Write>(&self, err: &mut E) {
        say(err, b"the depth is ");
        say(err, self.typed);
        say(err, b": it lies from 0 to ");
        say_number(err, DEPTH);
    }

    // As `job.txt:8: fault 6: ..`. A text without a fault has no sentence: then it is the depth that was refused.
    fn say_fault<E: Write>(&self, err: &mut E, refusal: Refusal) {
        say(err, self.name);
        if refusal.line > 0 {
            say(err, b":");
            say_number(err, refusal.line);
        }
        say(err, b": fault ");
        say_number(err, u64::from(refusal.fault));
        say(err, b": ");
        let mut sentence = [0u8; SENTENCE];
        let n = self.explain(&mut sentence);
        if n == 0 {
            self.say_depth(err);
        }
        say(err, &sentence[..n]);
        say(err, b"\n");
    }

    pub fn outcome<E: Write>(&self, err: &mut E, refused: Option<Refusal>) -> Outcome {
        match refused {
            None => Outcome::Answered,
            Some(refusal) => {
                self.say_fault(err, refusal);
                Outcome::Fault
            }
        }
    }
}
