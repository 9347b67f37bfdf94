// A book's entries on a shelf: slots chained as a balanced tree in book order. No call takes memory, and each goes down one
// way of at most 14 levels, whatever the shelf holds.
// The slots, the root link and the watch stay parameters of their own: the caller owns them, one who only reads has no `&mut`
// to give, and calls that count take no watch. So do the link and the depth of a walk: both are others at each step.
#![tactic(auto)]

mod dating;
pub mod reading;
pub mod writing;

pub use reading::{count_before, count_up_to, figure_up_to, find, joined_up_to};
pub use writing::{add, no_root, set_note, void};
