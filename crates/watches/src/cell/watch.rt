// The count of a cell, kept by the sum of the changes to it.
ghost use Rattle.std.specs.Prelude.{◌≡◌};
ghost use Rattle.watches.specs.Cell.{cell_figure, cell_question, cell_summary, watch_of};
ghost use Rattle.watches.specs.CellLaws.{cell_rules};

use crate::{CellWatch, Sum, Summary as _, Watch};
use machines::{Machine as _, Operation, Question};
use primitives::{CHANGE, PLACES, Tally};

impl CellWatch {
    // The watch of that cell; none where a tally has no such cell. The `if` stays: the ghost field is shown from its test.
    pub fn new(cell: u16) -> Option<CellWatch>
        ensures { result ≡ watch_of cell }
    {
        if cell < PLACES {
            Some(CellWatch { cell })
        } else {
            None
        }
    }
}

impl Watch for CellWatch {
    type Machine = Tally;

    type Summary = Sum;

    ghost question = { cell_question };

    ghost summed = { cell_summary };

    ghost figure = { cell_figure };

    ghost rules = { cell_rules };

    fn question(&self) -> Question {
        Question {
            code: CHANGE,
            place: self.cell,
            index: 0,
        }
    }

    // A change of the cell gives its amount; what the tally does not know, or what changes another cell, gives the unit.
    fn summary_of(&self, operation: &Operation) -> Sum {
        if Tally::knows(operation) && operation.place == self.cell {
            Sum {
                total: i64::from(operation.amount),
            }
        } else {
            Sum::unit()
        }
    }

    fn figure(&self, summary: &Sum) -> i64 {
        summary.total
    }
}
