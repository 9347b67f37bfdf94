// The watch of one cell of a tally.
ghost use Rattle.std.specs.Prelude.{◌≡◌, true, nat_lt};

pub mod watch;

// The question for the count of one cell.
#[derive(Clone, Copy)]
pub struct CellWatch {
    cell: u16,
    // Only a cell that a tally has can be watched.
    ghost exists: { nat_lt cell 64 ≡ true },
}
