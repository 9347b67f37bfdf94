// Sums: the total of amounts.
ghost use Rattle.std.specs.Prelude.{◌≡◌};
ghost use Rattle.watches.specs.Sums.{LeastWeight, sums};
ghost use Rattle.std.proofs.Common.{rules};

use crate::Summary;

// The most that a unit of weight holds: the largest amount of a change.
const AMOUNT_PER_WEIGHT: u64 = 1_000_000;

#[derive(Clone, Copy, PartialEq, Eq)]
pub struct Sum {
    pub total: i64,
}

impl Sum {
    // The least weight whose amounts reach the total.
    pub fn weight(&self) -> u64
        ensures model { result ≡ sums.weight self.now }
        ensures least { LeastWeight self.now result }
    {
        self.total.unsigned_abs().div_ceil(AMOUNT_PER_WEIGHT)
    }
}

impl Summary for Sum {
    ghost model = { sums };

    ghost lawful = { Prim.search rules };

    fn unit() -> Sum {
        Sum { total: 0 }
    }

    // It saturates only beyond the bound on the weights.
    fn join(self, other: Sum) -> Sum {
        Sum {
            total: self.total.saturating_add(other.total),
        }
    }
}
