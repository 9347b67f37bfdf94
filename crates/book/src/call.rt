// What is asked of a book, and what it gives where it accepts.
use machines::{Operation, Question};

// Entering adds an entry: an operation under a date. Asking reads what a new machine answers after the entries dated no
// later than the date.
#[derive(Clone, Copy, PartialEq, Eq)]
pub enum Call<D> {
    Enter(D, Operation),
    Ask(D, Question),
}

#[derive(Clone, Copy)]
pub enum Accepted {
    // The number of the new entry.
    Entered(usize),
    // The reading, none where the machine gives none, and the number of entries that it is of.
    Read(Option<i64>, usize),
}
