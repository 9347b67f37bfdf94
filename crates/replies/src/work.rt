// Works off the calls of a script on a new book.
ghost use Rattle.std.specs.Prelude.{◌≡◌, [], IfOk};
ghost use Rattle.book.specs.Order.{InBookOrder};
ghost use Rattle.replies.specs.Replies.{Replied, after_lines, replies, totals};

use crate::{Reply, Totals};
use book::{Entries, Refusal};
use dates::Date;
use machines::Machine;
use script::Line;
use std::alloc::{AllocError, Global};

// The reply to a line, with the call made on the entries.
fn reply_to<D: Date, M: Machine>(
    entries: &mut Entries<D>,
    heap: Global,
    line: &Line<D>,
) -> Result<Reply, AllocError>
    ensures { IfOk result (λ given. Replied D.Date.model M.Machine.model entries.old line.now given entries.new) }
{
    let answer = match &line.call {
        Ok(call) => entries.answer::<M>(heap, call)?,
        Err(fault) => Err(Refusal::from(*fault)),
    };
    Ok(Reply {
        line: line.number,
        answer,
    })
}

// The replies to the lines, one after another; it fails only for want of memory.
pub fn work_off<D: Date, M: Machine>(
    heap: Global,
    lines: &[Line<D>],
) -> Result<Vec<Reply>, AllocError>
    ensures replies { IfOk result (λ given. given.items ≡ replies D.Date.model M.Machine.model [] lines.now) }
    ensures ordered { InBookOrder D.Date.model (after_lines D.Date.model M.Machine.model [] lines.now) }
{
    let mut entries = Entries::new(heap);
    let mut given = Vec::new(heap);
    for line in lines {
        let reply = reply_to::<D, M>(&mut entries, heap, line)?;
        given.push(reply)?;
    }
    Ok(given)
}

// Counts the replies.
pub fn count(replies: &[Reply]) -> Totals
    ensures { result ≡ totals replies.now }
{
    let accepted = replies.iter().filter(|reply| reply.answer.is_ok()).count();
    Totals {
        calls: replies.len(),
        accepted,
        refused: replies.len() - accepted,
    }
}
