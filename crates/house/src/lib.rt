// The house book: its machine is a tally paired with a pair of queue and board.
#![tactic(auto)]

ghost use Rattle.std.specs.Prelude.{string_bytes};
ghost use Rattle.script.specs.Scripts.{Agrees};
ghost use Rattle.replies.specs.Transcripts.{transcript};
ghost use Rattle.house.specs.House.{house};

use machines::Pair;
use primitives::{Board, Queue, Tally};
use replies::print_script;
use script::ScriptFault;
use std::alloc::Global;

pub type HouseMachine = Pair<Tally, Pair<Queue, Board>>;

// What a script prints, worked off on a new house book.
pub fn print_house_script(heap: Global, text: &str) -> Result<String, ScriptFault>
    ensures { Agrees string_bytes result (transcript house text.now) }
{
    print_script::<HouseMachine>(heap, text)
}
