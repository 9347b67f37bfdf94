// Jobs that wait, the first in being the first out: an order puts one at the end, a draw takes the one at the front.
ghost use Rattle.std.specs.Prelude.{◌≡◌, ◌-◌, ◌≤◌, ◌∷◌, length, take, drop, if◌then◌else◌};
ghost use Rattle.std.specs.VecDeque.{deque_capacity};
ghost use Rattle.std.specs.List.{slice_get};
ghost use Rattle.primitives.specs.Queue.{queue, is_order, is_draw, asks_length, asks_job, has_room, ordered, order_note, draw_note, Few, plain_queue, queue_bound};
ghost use Rattle.primitives.specs.Steps.{bounded_lawful};
ghost use Rattle.primitives.specs.Queues.{queue_lawful};

use crate::form::Form;
use machines::{Machine, Note, Operation, Question};
use std::alloc::{AllocError, Global};
use std::collections::VecDeque;

// (A code is a number: the head of the crate says why.) The code of the operation `order`, whose amount is a job, and of the question how many jobs wait.
pub const ORDER: u16 = 2;

// (A code is a number: the head of the crate says why.) The code of the operation `draw`, and of the question which job waits at an index.
pub const DRAW: u16 = 3;

const MOST_JOBS: usize = 1024;

const ORDERS: Form = Form {
    code: ORDER,
    places: 1,
    least: 0,
    most: 999_999,
};

const DRAWS: Form = Form {
    code: DRAW,
    places: 1,
    least: 0,
    most: 0,
};

const LENGTHS: Form = Form {
    code: ORDER,
    places: 1,
    least: 0,
    most: 0,
};

const JOBS: Form = Form {
    code: DRAW,
    places: 1,
    least: 0,
    most: 1_023,
};

// The room for all jobs is taken once, in `new`.
#[derive(Drop)]
pub struct Queue {
    jobs: VecDeque<i32>,
    ghost room: { 1024 ≤ deque_capacity jobs },
    ghost few: { Few jobs.items },
}

pub fn is_order(operation: &Operation) -> bool
    ensures { result ≡ is_order operation.now }
{
    ORDERS.has_operation(operation)
}

pub fn is_draw(operation: &Operation) -> bool
    ensures { result ≡ is_draw operation.now }
{
    DRAWS.has_operation(operation)
}

fn asks_length(question: &Question) -> bool
    ensures { result ≡ asks_length question.now }
{
    LENGTHS.has_question(question)
}

fn asks_job(question: &Question) -> bool
    ensures { result ≡ asks_job question.now }
{
    JOBS.has_question(question)
}

impl Queue {
    // The job at an index; none past the last.
    fn job(&self, index: usize) -> Option<i64>
        ensures { result ≡ slice_get self.now.jobs.items index }
    {
        self.jobs.get(index).map(|job| i64::from(*job))
    }

    fn order(&mut self, job: i32) -> Note
        ensures jobs { self.new.jobs.items ≡ ordered self.old.jobs.items job }
        ensures noted { result ≡ order_note self.old.jobs.items }
    {
        if self.jobs.len() >= MOST_JOBS {
            return None;
        }
        self.jobs.push_back_reserved(job);
        Some(0)
    }

    fn draw(&mut self) -> Note
        ensures jobs { self.new.jobs.items ≡ drop 1 self.old.jobs.items }
        ensures noted { result ≡ draw_note self.old.jobs.items }
    {
        self.jobs.pop_front()
    }

    // Takes the last job off again.
    fn take_back_order(&mut self)
        ensures { self.new.jobs.items ≡ take (length self.old.jobs.items - 1) self.old.jobs.items }
    {
        let _ = self.jobs.pop_back();
    }

    // Puts the job back at the front, where there is room.
    fn take_back_draw(&mut self, job: i32)
        ensures { self.new.jobs.items ≡ (if has_room self.old.jobs.items then job ∷ self.old.jobs.items else self.old.jobs.items) }
    {
        if self.jobs.len() < MOST_JOBS {
            self.jobs.push_front_reserved(job);
        }
    }
}

impl Machine for Queue {
    ghost model = { queue };

    ghost state = { λ q. (q.jobs.items, q.few) };

    ghost lawful = { bounded_lawful plain_queue queue_bound queue_lawful };

    #[tactic(auto, using(crate::specs::Queues::queue_same))]
    fn new(heap: Global) -> Result<Queue, AllocError> {
        Ok(Queue {
            jobs: VecDeque::with_capacity(heap, MOST_JOBS)?,
        })
    }

    fn knows(operation: &Operation) -> bool {
        is_order(operation) || is_draw(operation)
    }

    fn answers(question: &Question) -> bool {
        asks_length(question) || asks_job(question)
    }

    #[tactic(auto, using(crate::specs::Queues::queue_same))]
    fn step(&mut self, operation: &Operation) -> Note {
        if is_order(operation) {
            self.order(operation.amount)
        } else if is_draw(operation) {
            self.draw()
        } else {
            None
        }
    }

    fn take_back(&mut self, operation: &Operation, note: Note) {
        let Some(job) = note else {
            return;
        };
        if is_order(operation) {
            self.take_back_order();
        } else if is_draw(operation) {
            self.take_back_draw(job);
        }
    }

    fn read(&self, question: &Question) -> Option<i64> {
        if asks_length(question) {
            Some(self.jobs.len() as i64)
        } else if asks_job(question) {
            self.job(question.index as usize)
        } else {
            None
        }
    }
}
