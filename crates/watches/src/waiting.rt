// The watch of how many jobs wait in a queue, kept by spans.
ghost use Rattle.watches.specs.Waiting.{waiting_figure, waiting_question, waiting_summary};
ghost use Rattle.watches.specs.WaitingLaws.{waiting_rules};

use crate::{Span, Summary as _, Watch};
use machines::{Operation, Question};
use primitives::{ORDER, Queue, is_draw, is_order};

// The question how many jobs wait.
#[derive(Clone, Copy)]
pub struct WaitingWatch;

impl Watch for WaitingWatch {
    type Machine = Queue;

    type Summary = Span;

    ghost question = { waiting_question };

    ghost summed = { waiting_summary };

    ghost figure = { waiting_figure };

    ghost rules = { waiting_rules };

    fn question(&self) -> Question {
        Question {
            code: ORDER,
            place: 0,
            index: 0,
        }
    }

    // A draw alone is unmet: whether a job waited for it is known only once it is joined to what came before.
    fn summary_of(&self, operation: &Operation) -> Span {
        if is_order(operation) {
            Span { unmet: 0, left: 1 }
        } else if is_draw(operation) {
            Span { unmet: 1, left: 0 }
        } else {
            Span::unit()
        }
    }

    fn figure(&self, summary: &Span) -> i64 {
        i64::from(summary.left)
    }
}
