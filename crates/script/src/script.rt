// Reads a whole script, before any of its calls is made.
ghost use Rattle.std.specs.Prelude.{◌≡◌, drop, Some, vec_items};
ghost use Rattle.script.specs.Scripts.{Agrees, calls, fault_text, head, kind, line_call, listed, script, setting};
ghost use Rattle.words.specs.Text.{spelled};
ghost use Rattle.script.specs.declared.line.Kind.TheVariants.{Days};
ghost use Rattle.script.specs.declared.line.ScriptFault.TheVariants.{NoMemory};

use crate::command::read_call;
use crate::line::{Kind, Line, Script, ScriptFault, Setting};
use crate::written::WrittenDate;
use book::Call;
use dates::NoSuchDate;
use std::alloc::{AllocError, AllocFailed, Global};
use std::error::Error;
use std::fmt;
use words::{Reason, lines_of, words_of};

impl Error for ScriptFault {}

// The conversions are written out, since a clause names the error that `?` makes, and those that a derive writes have no contract.
impl From<AllocError> for ScriptFault {
    ghost from_gives = { λ _ fault. fault ≡ NoMemory };

    fn from(_: AllocError) -> ScriptFault {
        ScriptFault::NoMemory
    }
}

// What `push` fails with holds the value that was not stored, so `?` converts it by an impl of its own.
impl<T: Drop> From<AllocFailed<T>> for ScriptFault {
    ghost from_gives = { λ _ fault. fault ≡ NoMemory };

    fn from(_: AllocFailed<T>) -> ScriptFault {
        ScriptFault::NoMemory
    }
}

impl fmt::Display for ScriptFault {
    ghost output = { λ fault. Some (fault_text fault) };

    fn fmt<W: fmt::Write>(&self, f: &mut fmt::Formatter<W>) -> fmt::Result {
        match self {
            ScriptFault::BadLine(number, reason) => write!(f, "line {number}: {reason}"),
            ScriptFault::NoMemory => f.write_str("out of memory"),
        }
    }
}

fn read_kind(words: &[&str]) -> Result<Kind, Reason>
    ensures { result ≡ kind (spelled words.now) }
{
    match words {
        ["days"] => Ok(Kind::Days),
        ["survey"] => Ok(Kind::Survey),
        _ => Err(Reason::UnknownKind),
    }
}

fn read_setting(words: &[&str]) -> Result<Setting, Reason>
    ensures { result ≡ setting (spelled words.now) }
{
    match words {
        [] => Ok(Setting::Blank),
        ["dates", kind @ ..] => read_kind(kind).map(Setting::Named),
        _ => Ok(Setting::Begun),
    }
}

// The kind of date, and how many lines stand before the first call.
fn read_head(heap: Global, lines: &[&str]) -> Result<(Kind, usize), ScriptFault>
    ensures { Agrees (λ x. x) result (head Days 0 (spelled lines.now)) }
{
    let mut kind = Kind::Days;
    for (i, line) in lines.iter().enumerate() {
        let number = i + 1;
        let words = words_of(heap, line)?;
        let words = words.as_slice();
        let setting = read_setting(words).map_err(|reason| ScriptFault::BadLine(number, reason))?;
        match setting {
            Setting::Blank => {}
            Setting::Named(named) => kind = named,
            Setting::Begun => return Ok((kind, i)),
        }
    }
    Ok((kind, lines.len()))
}

// None for a line with no words.
fn read_line<D: WrittenDate>(words: &[&str]) -> Result<Option<Result<Call<D>, NoSuchDate>>, Reason>
    ensures { result ≡ line_call D.written (spelled words.now) }
{
    match words {
        [] => Ok(None),
        words => read_call(words).map(Some),
    }
}

// The calls from a line on. A line is read here as in `read_head`: one function for both, over a closure that reads the words, was tried, and
// the check does not cover a call of it.
fn read_calls<D: WrittenDate>(
    heap: Global,
    lines: &[&str],
    from: usize,
) -> Result<Vec<Line<D>>, ScriptFault>
    ensures { Agrees vec_items result (calls D.written from (drop from (spelled lines.now))) }
{
    let mut found = Vec::new(heap);
    for (i, line) in lines.iter().enumerate().skip(from) {
        let number = i + 1;
        let words = words_of(heap, line)?;
        let words = words.as_slice();
        let call = read_line(words).map_err(|reason| ScriptFault::BadLine(number, reason))?;
        if let Some(call) = call {
            found.push(Line { number, call })?;
        }
    }
    Ok(found)
}

pub fn parse(heap: Global, text: &str) -> Result<Script, ScriptFault>
    ensures { Agrees listed result (script text.now) }
{
    let lines = lines_of(heap, text)?;
    let lines = lines.as_slice();
    match read_head(heap, lines)? {
        (Kind::Days, from) => read_calls(heap, lines, from).map(Script::OfDays),
        (Kind::Survey, from) => read_calls(heap, lines, from).map(Script::OfSurveys),
    }
}
