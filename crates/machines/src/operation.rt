// What is done to a machine, what is asked of it, and what a step notes.

// A change to a machine: what is done, where, and how much.
//
// The code is a number and no enum: each machine has codes of its own, and an operation that none of them knows has to be held, so that it is
// refused.
#[derive(Clone, Copy, PartialEq, Eq)]
pub struct Operation {
    pub code: u16,
    pub place: u16,
    pub amount: i32,
}

// What is asked of a machine: the code says what is read, the place and the index where. The code is a number for the reason given above.
#[derive(Clone, Copy, PartialEq, Eq)]
pub struct Question {
    pub code: u16,
    pub place: u16,
    pub index: i32,
}

// What a step did, as far as its taking back needs to know: none where it was idle, and the number of its move where it moved.
pub type Note = Option<i32>;
