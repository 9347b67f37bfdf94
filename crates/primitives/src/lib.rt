// The three machines that are not made of others: counts, jobs that wait, and statuses.
//
// The codes of operations and questions are numbers, each with a constant, and no enum: each machine has codes of its own, and a code that no
// machine knows has to be held until it is refused.
#![tactic(auto)]

pub mod board;
mod form;
mod numbers;
pub mod queue;
pub mod tally;

pub use board::{Board, SET};
pub use numbers::PLACES;
pub use queue::{DRAW, ORDER, Queue, is_draw, is_order};
pub use tally::{CHANGE, Tally};
