// Spans: what orders and draws in a row come to, whatever waited before them.
ghost use Rattle.watches.specs.Spans.{spans};
ghost use Rattle.std.proofs.Common.{rules};

use crate::Summary;

// The draws that no job of the row met, and the jobs that no draw of the row took.
#[derive(Clone, Copy, PartialEq, Eq)]
pub struct Span {
    pub unmet: u32,
    pub left: u32,
}

impl Summary for Span {
    ghost model = { spans };

    ghost lawful = { Prim.search rules };

    fn unit() -> Span {
        Span { unmet: 0, left: 0 }
    }

    // Jobs left here meet the other's draws, as far as they go. It saturates only beyond the bound on the weights.
    fn join(self, other: Span) -> Span {
        let met = self.left.min(other.unmet);
        Span {
            unmet: self.unmet.saturating_add(other.unmet - met),
            left: (self.left - met).saturating_add(other.left),
        }
    }
}
