// The calls on a book of dated entries, what they give and refuse, and an engine that answers an asking by replaying
// entries on a new machine.
#![tactic(auto)]

pub mod call;
pub mod entries;
pub mod fault;
pub mod refusal;

pub use call::{Accepted, Call};
pub use entries::{Entries, Entry};
pub use fault::Fault;
pub use refusal::Refusal;
