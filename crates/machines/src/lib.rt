// The interface of a machine, machines made of machines, and the counter that holds one.
#![tactic(auto)]

pub mod counter;
pub mod fault;
pub mod inset;
pub mod machine;
pub mod operation;
pub mod pair;

pub use counter::{Counter, Steps};
pub use fault::MachineFault;
pub use inset::Inset;
pub use machine::{Machine, check_operation, check_question};
pub use operation::{Note, Operation, Question};
pub use pair::Pair;
