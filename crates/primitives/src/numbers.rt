// What a tally and a board share: 64 numbers, one for each place, and the question that reads one of them.
ghost use Rattle.std.specs.Prelude.{◌≡◌, length, replicate, pos};
ghost use Rattle.primitives.specs.Numbers.{asks_number, number_asked};

use crate::form::Form;
use machines::Question;

// How many cells a tally has, and how many paths a board.
pub const PLACES: u16 = 64;

// The numbers of the places, all 0 at first. The question of the code CODE reads one of them.
#[derive(Drop)]
pub(crate) struct Numbers<const CODE: u16> {
    // A place is made an index by `as`, which loses nothing. `usize::from` was tried: the index is then what a call answers, and the proofs that
    // speak of what is written at a place do not close as they stand.
    pub(crate) items: [i32; PLACES as usize],
    ghost long: { length items ≡ 64 },
}

impl<const CODE: u16> Numbers<CODE> {
    pub(crate) fn new() -> Numbers<CODE>
        ensures { result.items ≡ replicate 64 (pos 0) }
    {
        Numbers {
            items: [0; PLACES as usize],
        }
    }

    // Whether the question asks for one of the numbers.
    pub(crate) fn answers(question: &Question) -> bool
        ensures { result ≡ asks_number CODE question.now }
    {
        let form = Form {
            code: CODE,
            places: PLACES,
            least: 0,
            most: 0,
        };
        form.has_question(question)
    }

    // The number that the question asks for; none where it asks for none of them.
    pub(crate) fn read(&self, question: &Question) -> Option<i64>
        ensures { result ≡ number_asked CODE self.now.items question.now }
    {
        // The `if` stays: in a closure of `then` the index is not known to be below 64.
        if Self::answers(question) {
            Some(i64::from(self.items[question.place as usize]))
        } else {
            None
        }
    }
}
