// 64 statuses that sets write.
ghost use Rattle.primitives.specs.Board.{board, plain_board, board_bound};
ghost use Rattle.primitives.specs.Steps.{bounded_lawful};
ghost use Rattle.primitives.specs.Boards.{board_lawful};

use crate::form::Form;
use crate::numbers::{Numbers, PLACES};
use machines::{Machine, Note, Operation, Question};
use std::alloc::{AllocError, Global};

// (A code is a number: the head of the crate says why.) The code of the operation `set`, whose amount is the new status of a path, and of the question for the status of a path.
pub const SET: u16 = 4;

const SETS: Form = Form {
    code: SET,
    places: PLACES,
    least: 0,
    most: 7,
};

#[derive(Drop)]
pub struct Board {
    statuses: Numbers<SET>,
}

impl Machine for Board {
    ghost model = { board };

    ghost state = { λ b. (b.statuses.items, b.statuses.long) };

    ghost lawful = { bounded_lawful plain_board board_bound board_lawful };

    #[tactic(auto, using(crate::specs::Boards::board_same))]
    fn new(_heap: Global) -> Result<Board, AllocError> {
        Ok(Board {
            statuses: Numbers::new(),
        })
    }

    fn knows(operation: &Operation) -> bool {
        SETS.has_operation(operation)
    }

    fn answers(question: &Question) -> bool {
        Numbers::<SET>::answers(question)
    }

    // Notes the old status.
    #[tactic(auto, using(crate::specs::Boards::board_same))]
    fn step(&mut self, operation: &Operation) -> Note {
        if !Self::knows(operation) {
            return None;
        }
        let path = operation.place as usize;
        let old = self.statuses.items[path];
        self.statuses.items[path] = operation.amount;
        Some(old)
    }

    fn take_back(&mut self, operation: &Operation, note: Note) {
        let Some(old) = note else {
            return;
        };
        if Self::knows(operation) {
            self.statuses.items[operation.place as usize] = old;
        }
    }

    fn read(&self, question: &Question) -> Option<i64> {
        self.statuses.read(question)
    }
}
