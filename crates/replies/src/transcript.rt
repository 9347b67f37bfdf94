// The whole output of a script.
ghost use Rattle.std.specs.Prelude.{◌≡◌, [], IfOk, string_bytes};
ghost use Rattle.replies.specs.Replies.{replies};
ghost use Rattle.script.specs.Scripts.{Agrees};
ghost use Rattle.replies.specs.Transcripts.{output, transcript};

use crate::{Reply, count, work_off};
use dates::Date;
use machines::Machine;
use script::{Line, Script, ScriptFault, parse};
use std::alloc::{AllocError, Global};

// A line for each reply, and the totals.
fn print_replies(heap: Global, replies: &[Reply]) -> Result<String, AllocError>
    ensures { IfOk result (λ text. string_bytes text ≡ output replies.now) }
{
    let mut text = String::new(heap);
    for reply in replies {
        writeln!(text, "{reply}")?;
    }
    let totals = count(replies);
    writeln!(text, "{totals}")?;
    Ok(text)
}

fn print_lines<D: Date, M: Machine>(heap: Global, lines: &[Line<D>]) -> Result<String, AllocError>
    ensures { IfOk result (λ text. string_bytes text ≡ output (replies D.Date.model M.Machine.model [] lines.now)) }
{
    let replies = work_off::<D, M>(heap, lines)?;
    print_replies(heap, replies.as_slice())
}

// What a script prints, worked off on a new book.
pub fn print_script<M: Machine>(heap: Global, text: &str) -> Result<String, ScriptFault>
    ensures { Agrees string_bytes result (transcript M.model text.now) }
{
    match parse(heap, text)? {
        Script::OfDays(lines) => Ok(print_lines::<_, M>(heap, lines.as_slice())?),
        Script::OfSurveys(lines) => Ok(print_lines::<_, M>(heap, lines.as_slice())?),
    }
}
