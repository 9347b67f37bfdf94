// A machine whose places begin at a base: it hands the place p down as p - base, and has no place below the base.
ghost use Rattle.std.specs.Prelude.{◌≡◌, if◌then◌else◌, Some, None, nat_le};
ghost use Rattle.machines.specs.Inset.{inset, lowered_operation, lowered_question};
ghost use Rattle.machines.specs.InsetLaws.{inset_lawful};

use crate::{Machine, Note, Operation, Question};
use std::alloc::{AllocError, Global};

// A machine whose places begin at BASE.
#[derive(Drop)]
pub struct Inset<M, const BASE: u16> {
    machine: M,
}

// As it is handed down; none where its place lies below the base.
fn lower_operation(operation: &Operation, base: u16) -> Option<Operation>
    ensures { result ≡ (if nat_le base operation.now.place then Some (lowered_operation base operation.now) else None) }
{
    Some(Operation {
        place: operation.place.checked_sub(base)?,
        ..*operation
    })
}

// The same for a question. The two stay apart: what they share is `checked_sub`, and a trait for the place of either would be longer.
fn lower_question(question: &Question, base: u16) -> Option<Question>
    ensures { result ≡ (if nat_le base question.now.place then Some (lowered_question base question.now) else None) }
{
    Some(Question {
        place: question.place.checked_sub(base)?,
        ..*question
    })
}

impl<M: Machine, const BASE: u16> Machine for Inset<M, BASE> {
    ghost model = { inset BASE M.Machine.model };

    ghost state = { λ i. M.Machine.state i.machine };

    ghost lawful = { inset_lawful _ _ M.Machine.lawful };

    fn new(heap: Global) -> Result<Inset<M, BASE>, AllocError> {
        Ok(Inset {
            machine: M::new(heap)?,
        })
    }

    fn knows(operation: &Operation) -> bool {
        lower_operation(operation, BASE).is_some_and(|lowered| M::knows(&lowered))
    }

    // As `knows`, of the other type.
    fn answers(question: &Question) -> bool {
        lower_question(question, BASE).is_some_and(|lowered| M::answers(&lowered))
    }

    fn step(&mut self, operation: &Operation) -> Note {
        self.machine.step(&lower_operation(operation, BASE)?)
    }

    fn take_back(&mut self, operation: &Operation, note: Note) {
        if let Some(lowered) = lower_operation(operation, BASE) {
            self.machine.take_back(&lowered, note);
        }
    }

    // As `step`, of the other type: the interface has a method for each.
    fn read(&self, question: &Question) -> Option<i64> {
        self.machine.read(&lower_question(question, BASE)?)
    }
}
