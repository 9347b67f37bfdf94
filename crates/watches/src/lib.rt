// Summaries of operations, and watches: questions of a machine that are answered from joined summaries, without a step.
#![tactic(auto)]

pub mod cell;
pub mod first;
pub mod span;
pub mod sum;
pub mod summary;
pub mod waiting;
pub mod watch;

pub use cell::CellWatch;
pub use first::First;
pub use span::Span;
pub use sum::Sum;
pub use summary::Summary;
pub use waiting::WaitingWatch;
pub use watch::Watch;
