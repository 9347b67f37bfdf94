// The interface of a watch: it ties a summary to a machine, so that one question is answered from summaries, without a step.
ghost use Rattle.std.specs.Prelude.{◌≡◌, ℤ};
ghost use Rattle.machines.specs.declared.operation.Operation.{Operation};
ghost use Rattle.machines.specs.declared.operation.Question.{Question};
ghost use Rattle.watches.specs.Watch.{WatchRules};

use crate::Summary;
use machines::{Machine, Operation, Question};

pub trait Watch {
    // The machine that is watched.
    type Machine: Machine;

    // What sums up its operations.
    type Summary: Summary;

    // The one question that is watched.
    ghost question: { Self → Question };

    // The summary of one operation.
    ghost summed: { Self → Operation → Self.Summary };

    // The number that is read from a summary.
    ghost figure: { Self → Self.Summary → ℤ };

    // The question whose reading the figure is.
    fn question(&self) -> Question
        ensures { result ≡ question self.now };

    // The summary of that one operation: the unit where the machine does not know it.
    fn summary_of(&self, operation: &Operation) -> Self::Summary
        ensures { result ≡ summed self.now operation.now };

    // What the question reads of every state that the summary matches.
    fn figure(&self, summary: &Self::Summary) -> i64
        ensures { result ≡ figure self.now summary.now };

    // What holds of every watch: above all, that the figure of the joined summaries is what the machine would read.
    ghost rules: { (watch : Self) → WatchRules Self.Machine.Machine.model Self.Summary.Summary.model (question watch) (summed watch) (figure watch) };
}
