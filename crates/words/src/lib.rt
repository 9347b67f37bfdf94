// The words of a script: how a text is cut into them, and the numbers, operations and questions that they name.
#![tactic(auto)]

pub mod number;
pub mod operation;
pub mod reason;
pub mod text;

pub use number::{Number, read_number};
pub use operation::{read_operation, read_question};
pub use reason::Reason;
pub use text::{lines_of, words_of};
