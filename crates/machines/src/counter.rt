// Holds a machine and counts its steps, forward and back.
ghost use Rattle.std.specs.Prelude.{◌≡◌, ◌+◌, ◌-◌, ◌^◌, min, IfOk};
ghost use Rattle.machines.specs.Model.{TakesBack};

use crate::{Machine, Note, Operation, Question};
use std::alloc::{AllocError, Global};

// How many steps were counted. A count stops at u32::MAX.
#[derive(Clone, Copy, Debug, PartialEq, Eq, PartialOrd, Ord, Hash, Default)]
pub struct Steps {
    pub back: u32,
    pub forward: u32,
}

// The machine is reached through the counter alone, so that no step goes uncounted.
#[derive(Drop)]
pub struct Counter<M> {
    machine: M,
    steps: Steps,
}

impl<M: Machine> Counter<M> {
    // An empty machine, and no steps.
    pub fn new(heap: Global) -> Result<Counter<M>, AllocError>
        ensures { IfOk result (λ counter. (M.state counter.machine ≡ M.model.empty) × (counter.steps.back ≡ 0) × (counter.steps.forward ≡ 0)) }
    {
        Ok(Counter {
            machine: M::new(heap)?,
            steps: Steps::default(),
        })
    }

    // Counts from 0 again.
    pub fn begin(&mut self)
        ensures machine { self.new.machine ≡ self.old.machine }
        ensures back { self.new.steps.back ≡ 0 }
        ensures forward { self.new.steps.forward ≡ 0 }
    {
        self.steps = Steps::default();
    }

    pub fn step(&mut self, operation: &Operation) -> Note
        ensures next { M.state self.new.machine ≡ M.model.next (M.state self.old.machine) operation.now }
        ensures noted { result ≡ M.model.noted (M.state self.old.machine) operation.now }
        ensures back { self.new.steps.back ≡ self.old.steps.back }
        ensures forward { self.new.steps.forward ≡ min (self.old.steps.forward + 1) (2 ^ 32 - 1) }
    {
        self.steps.forward = self.steps.forward.saturating_add(1);
        self.machine.step(operation)
    }

    pub fn take_back(&mut self, operation: &Operation, note: Note)
        ensures undoes { TakesBack M.model (M.state self.old.machine) operation.now note (M.state self.new.machine) }
        ensures back { self.new.steps.back ≡ min (self.old.steps.back + 1) (2 ^ 32 - 1) }
        ensures forward { self.new.steps.forward ≡ self.old.steps.forward }
    {
        self.steps.back = self.steps.back.saturating_add(1);
        self.machine.take_back(operation, note);
    }

    pub fn read(&self, question: &Question) -> Option<i64>
        ensures { result ≡ M.model.reads (M.state self.now.machine) question.now }
    {
        self.machine.read(question)
    }

    // The steps counted.
    pub fn steps(&self) -> Steps
        ensures { result ≡ self.now.steps }
    {
        self.steps
    }
}
