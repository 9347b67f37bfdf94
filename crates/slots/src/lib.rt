// The slots of a shelf, and the tree that is chained in them.
#![tactic(auto)]

pub mod figures;
pub mod slot;
pub mod tree;

pub use slot::{Parts, Slot};
