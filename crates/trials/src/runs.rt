// What the tests of the machines share: operations and questions in the words of the machines, a tally with other places, and
// a trial of a machine.
use machines::{Counter, Inset, Machine, Note, Operation, Question, Steps};
use primitives::{CHANGE, DRAW, ORDER, SET, Tally};
use std::alloc::{AllocError, Global};
use std::test::Fail;

// A tally whose cells are at the places 64 to 127.
pub(crate) type TallyAt64 = Inset<Tally, 64>;

// The makers stand in `shelf_trials` too: two programs with no library in common.
pub(crate) fn operation(code: u16, place: u16, amount: i32) -> Operation {
    Operation {
        code,
        place,
        amount,
    }
}

pub(crate) fn question(code: u16, place: u16, index: i32) -> Question {
    Question { code, place, index }
}

pub(crate) fn change(cell: u16, amount: i32) -> Operation {
    operation(CHANGE, cell, amount)
}

pub(crate) fn order(job: i32) -> Operation {
    operation(ORDER, 0, job)
}

pub(crate) fn draw() -> Operation {
    operation(DRAW, 0, 0)
}

pub(crate) fn set(path: u16, status: i32) -> Operation {
    operation(SET, path, status)
}

pub(crate) fn count(cell: u16) -> Question {
    question(CHANGE, cell, 0)
}

pub(crate) fn waiting() -> Question {
    question(ORDER, 0, 0)
}

pub(crate) fn job(index: i32) -> Question {
    question(DRAW, 0, index)
}

pub(crate) fn status(path: u16) -> Question {
    question(SET, path, 0)
}

// A machine in its counter, and its steps that still stand.
#[derive(Drop)]
pub struct Trial<M> {
    counter: Counter<M>,
    standing: Vec<(Operation, Note)>,
}

impl<M: Machine> Trial<M> {
    pub(crate) fn new(heap: Global) -> Result<Trial<M>, AllocError> {
        Ok(Trial {
            counter: Counter::new(heap)?,
            standing: Vec::new(heap),
        })
    }

    // What the step notes.
    pub(crate) fn step(&mut self, operation: Operation) -> Result<Note, AllocError> {
        let note = self.counter.step(&operation);
        self.standing.push((operation, note))?;
        Ok(note)
    }

    // Whether each of so many steps with the operation moves the machine; it stops at one that is idle.
    pub(crate) fn moves(&mut self, operation: Operation, times: usize) -> Result<bool, AllocError> {
        for _ in 0..times {
            if self.step(operation)?.is_none() {
                return Ok(false);
            }
        }
        Ok(true)
    }

    // Takes back the last step that still stands.
    pub(crate) fn take_back(&mut self) -> Result<(), Fail> {
        let (operation, note) = self.standing.pop().ok_or("no step stands")?;
        self.counter.take_back(&operation, note);
        Ok(())
    }

    pub(crate) fn read(&self, question: Question) -> Option<i64> {
        self.counter.read(&question)
    }

    // The steps counted: back, then forward.
    pub(crate) fn steps(&self) -> (u32, u32) {
        let Steps { back, forward } = self.counter.steps();
        (back, forward)
    }

    pub(crate) fn begin(&mut self) {
        self.counter.begin();
    }
}
