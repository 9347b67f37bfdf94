// The answers to the calls of a script: worked off on a new book, and written as text.
#![tactic(auto)]

pub mod reply;
pub mod transcript;
pub mod work;

pub use reply::{Reply, Totals};
pub use transcript::print_script;
pub use work::{count, work_off};
