// The theory of the tree that keeps a book's slots in book order: what its levels, its rebalancing and its joins come to, over any order
// of dates and any summaries.
#![tactic(auto)]

pub mod claims;
pub mod levels;

pub use claims::{
    Dated, Summed, book_order_is_one_list, insertion_keeps_balance_and_order,
    joins_go_from_left_to_right,
};
pub use levels::{Lean, level_over, most_levels};
