// The interface of a summary: what is kept of operations that follow one another.
ghost use Rattle.std.specs.Prelude.{◌≡◌, ◌+◌, ◌≤◌};
ghost use Rattle.avl.specs.Summary.{SummaryModel, Lawful};

// A summary has a unit, a join and a weight. A light summary has small numbers, so that no join of light ones overflows.
pub trait Summary: Copy {
    // The unit, the join and the weight.
    ghost model: { SummaryModel Self };

    // The summary of no operation.
    fn unit() -> Self
        ensures { result ≡ model.unit };

    // The summary of these operations and then the other's. Beyond the bound on the weights it may be any summary.
    fn join(self, other: Self) -> Self
        ensures { model.weight self + model.weight other ≤ 4096 → result ≡ model.join self other };

    // The laws of every summary, which hold where the weights add to at most 4,096.
    ghost lawful: { Lawful model };
}
