// A watch of the first machine of a pair, as a watch of the pair.
ghost use Rattle.std.specs.Prelude.{◌≡◌};
ghost use Rattle.watches.specs.FirstLaws.{first_rules};

use crate::Watch;
use machines::{Machine, Operation, Pair, Question};
use std::marker::PhantomData;

// The watch W beside the second machine M.
#[derive(Drop)]
pub struct First<W, M> {
    watch: W,
    second: PhantomData<M>,
}

impl<W, M> First<W, M> {
    // The same watch, of the pair.
    pub fn new(watch: W) -> First<W, M>
        ensures { result.watch ≡ watch }
    {
        First {
            watch,
            second: PhantomData,
        }
    }
}

impl<W: Watch, M: Machine> Watch for First<W, M> {
    type Machine = Pair<W::Machine, M>;

    type Summary = W::Summary;

    ghost question = { λ first. W.Watch.question first.watch };

    ghost summed = { λ first. W.Watch.summed first.watch };

    ghost figure = { λ first. W.Watch.figure first.watch };

    ghost rules = { λ first. first_rules _ M.Machine.model _ W.Summary.Summary.lawful _ _ _ (W.Watch.rules first.watch) };

    fn question(&self) -> Question {
        self.watch.question()
    }

    // What the first does not know gives the unit, as it does in the watch of the first alone.
    fn summary_of(&self, operation: &Operation) -> W::Summary {
        self.watch.summary_of(operation)
    }

    fn figure(&self, summary: &W::Summary) -> i64 {
        self.watch.figure(summary)
    }
}
