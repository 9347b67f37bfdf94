// Two machines side by side: the first takes what it knows and answers, the second all else.
ghost use Rattle.machines.specs.Pair.{pair};
ghost use Rattle.machines.specs.PairLaws.{pair_lawful};

use crate::{Machine, Note, Operation, Question};
use std::alloc::{AllocError, Global};

#[derive(Drop)]
pub struct Pair<F, S> {
    first: F,
    second: S,
}

impl<F: Machine, S: Machine> Machine for Pair<F, S> {
    ghost model = { pair F.Machine.model S.Machine.model };

    ghost state = { λ p. (F.Machine.state p.first, S.Machine.state p.second) };

    ghost lawful = { pair_lawful _ _ F.Machine.lawful S.Machine.lawful };

    fn new(heap: Global) -> Result<Pair<F, S>, AllocError> {
        Ok(Pair {
            first: F::new(heap)?,
            second: S::new(heap)?,
        })
    }

    fn knows(operation: &Operation) -> bool {
        F::knows(operation) || S::knows(operation)
    }

    // As `knows`, of the other type. The interface has a method of each kind for operations and for questions, so that `step` and `read` look
    // alike too.
    fn answers(question: &Question) -> bool {
        F::answers(question) || S::answers(question)
    }

    fn step(&mut self, operation: &Operation) -> Note {
        if F::knows(operation) {
            self.first.step(operation)
        } else {
            self.second.step(operation)
        }
    }

    fn take_back(&mut self, operation: &Operation, note: Note) {
        if F::knows(operation) {
            self.first.take_back(operation, note);
        } else {
            self.second.take_back(operation, note);
        }
    }

    fn read(&self, question: &Question) -> Option<i64> {
        if F::answers(question) {
            self.first.read(question)
        } else {
            self.second.read(question)
        }
    }
}
