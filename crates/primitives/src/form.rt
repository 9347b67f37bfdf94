// What operations and questions of one code a machine has.
ghost use Rattle.std.specs.Prelude.{◌≡◌};
ghost use Rattle.primitives.specs.Forms.{has_form};

use machines::{Operation, Question};

// The operations, or the questions, of a code: they name one of the places below `places`, and their amount or index is a number from `least`
// to `most`.
#[derive(Clone, Copy)]
pub(crate) struct Form {
    pub(crate) code: u16,
    pub(crate) places: u16,
    pub(crate) least: i32,
    pub(crate) most: i32,
}

impl Form {
    // Whether an operation or a question of these three numbers is of this form.
    fn has(&self, code: u16, place: u16, number: i32) -> bool
        ensures { result ≡ has_form self.now code place number }
    {
        code == self.code && place < self.places && (self.least..=self.most).contains(&number)
    }

    pub(crate) fn has_operation(&self, operation: &Operation) -> bool
        ensures { result ≡ has_form self.now operation.now.code operation.now.place operation.now.amount }
    {
        self.has(operation.code, operation.place, operation.amount)
    }

    // As `has_operation`, of the other type; what they share is `has`.
    pub(crate) fn has_question(&self, question: &Question) -> bool
        ensures { result ≡ has_form self.now question.now.code question.now.place question.now.index }
    {
        self.has(question.code, question.place, question.index)
    }
}
