// The answers to the calls of a script, as values and as text.
ghost use Rattle.std.specs.Prelude.{Some};
ghost use Rattle.replies.specs.Replies.{reading_text, reply_text, totals_text};

use book::{Accepted, Refusal};
use std::fmt;

// The answer to the call of a line.
#[derive(Clone, Copy)]
pub struct Reply {
    pub line: usize,
    pub answer: Result<Accepted, Refusal>,
}

// How many calls were made, how many of them were accepted, and how many were refused.
#[derive(Clone, Copy)]
pub struct Totals {
    pub calls: usize,
    pub accepted: usize,
    pub refused: usize,
}

// A reading as it is printed.
#[derive(Clone, Copy)]
struct Reading(Option<i64>);

impl fmt::Display for Reading {
    ghost output = { λ reading. Some (reading_text reading.0) };

    fn fmt<W: fmt::Write>(&self, f: &mut fmt::Formatter<W>) -> fmt::Result {
        match self.0 {
            Some(number) => write!(f, "{number}"),
            None => f.write_str("none"),
        }
    }
}

impl fmt::Display for Reply {
    ghost output = { λ reply. Some (reply_text reply) };

    fn fmt<W: fmt::Write>(&self, f: &mut fmt::Formatter<W>) -> fmt::Result {
        let line = self.line;
        match self.answer {
            Ok(Accepted::Entered(number)) => write!(f, "line {line}: entry {number}"),
            Ok(Accepted::Read(reading, count)) => {
                let reading = Reading(reading);
                write!(f, "line {line}: reads {reading}, counted {count}")
            }
            Err(refusal) => {
                let number = refusal.number();
                let giver = refusal.giver();
                write!(f, "line {line}: refused {number} by {giver}: {refusal}")
            }
        }
    }
}

impl fmt::Display for Totals {
    ghost output = { λ totals. Some (totals_text totals) };

    fn fmt<W: fmt::Write>(&self, f: &mut fmt::Formatter<W>) -> fmt::Result {
        write!(
            f,
            "{} calls: {} accepted, {} refused",
            self.calls, self.accepted, self.refused,
        )
    }
}
