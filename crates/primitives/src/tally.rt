// 64 counts that changes add to.
ghost use Rattle.std.specs.Prelude.{◌≡◌, ◌+ℤ◌, if◌then◌else◌, Some, None};
ghost use Rattle.primitives.specs.Ranges.{within};
ghost use Rattle.primitives.specs.Tally.{tally, moves, sum, plain_tally, tally_bound};
ghost use Rattle.primitives.specs.Steps.{bounded_lawful};
ghost use Rattle.primitives.specs.Tallies.{tally_lawful};

use crate::form::Form;
use crate::numbers::{Numbers, PLACES};
use machines::{Machine, Note, Operation, Question};
use std::alloc::{AllocError, Global};

// (A code is a number: the head of the crate says why.) The code of the operation `change`, which adds its amount to a cell, and of the question for the count of a cell.
pub const CHANGE: u16 = 1;

const CHANGES: Form = Form {
    code: CHANGE,
    places: PLACES,
    least: -1_000_000,
    most: 1_000_000,
};

// A count lies between the number and its negative.
const LARGEST_COUNT: i64 = 2_000_000_000;

#[derive(Drop)]
pub struct Tally {
    counts: Numbers<CHANGE>,
}

fn is_count(number: i64) -> bool
    ensures { result ≡ within 2_000_000_000 number }
{
    (-LARGEST_COUNT..=LARGEST_COUNT).contains(&number)
}

// The sum, where it is a count.
fn added(count: i32, amount: i32) -> Option<i32>
    ensures { result ≡ (if within 2_000_000_000 (count +ℤ amount) then Some (count +ℤ amount) else None) }
{
    count
        .checked_add(amount)
        .filter(|sum| is_count(i64::from(*sum)))
}

impl Tally {
    // What the operation makes of its cell; none where the step is idle.
    fn changed(&self, operation: &Operation) -> Option<i32>
        ensures { result ≡ (if moves self.now.counts.items operation.now then Some (sum self.now.counts.items operation.now) else None) }
    {
        if !Tally::knows(operation) {
            return None;
        }
        added(
            self.counts.items[operation.place as usize],
            operation.amount,
        )
    }
}

impl Machine for Tally {
    ghost model = { tally };

    ghost state = { λ t. (t.counts.items, t.counts.long) };

    ghost lawful = { bounded_lawful plain_tally tally_bound tally_lawful };

    #[tactic(auto, using(crate::specs::Tallies::tally_same))]
    fn new(_heap: Global) -> Result<Tally, AllocError> {
        Ok(Tally {
            counts: Numbers::new(),
        })
    }

    fn knows(operation: &Operation) -> bool {
        CHANGES.has_operation(operation)
    }

    fn answers(question: &Question) -> bool {
        Numbers::<CHANGE>::answers(question)
    }

    #[tactic(auto, using(crate::specs::Tallies::tally_same))]
    fn step(&mut self, operation: &Operation) -> Note {
        let count = self.changed(operation)?;
        self.counts.items[operation.place as usize] = count;
        Some(0)
    }

    // The difference wraps only with a note that no step gives.
    fn take_back(&mut self, operation: &Operation, note: Note) {
        let Some(_) = note else {
            return;
        };
        if Self::knows(operation) {
            let cell = operation.place as usize;
            self.counts.items[cell] = self.counts.items[cell].wrapping_sub(operation.amount);
        }
    }

    fn read(&self, question: &Question) -> Option<i64> {
        self.counts.read(question)
    }
}
