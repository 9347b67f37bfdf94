// The interface of a machine: it means a state, steps over operations, takes steps back, and answers questions.
ghost use Rattle.std.specs.Prelude.{◌≡◌, IfOk};
ghost use Rattle.machines.specs.Model.{MachineModel, Lawful, TakesBack, known, answered};

use crate::{MachineFault, Note, Operation, Question};
use std::alloc::{AllocError, Global};

pub trait Machine: Drop + Sized {
    // What the machine means: its states, and how they change and read.
    ghost model: { MachineModel };

    // The state that a value means.
    ghost state: { Self → model.State };

    // A machine at the empty state.
    fn new(heap: Global) -> Result<Self, AllocError>
        ensures { IfOk result (λ machine. state machine ≡ model.empty) };

    // Whether the operation is one of the machine's.
    fn knows(operation: &Operation) -> bool
        ensures { result ≡ model.knows operation.now };

    // Whether the question is one of the machine's.
    fn answers(question: &Question) -> bool
        ensures { result ≡ model.answers question.now };

    // Changes the state as the operation says, and notes what its taking back needs to know.
    fn step(&mut self, operation: &Operation) -> Note
        ensures next { state self.new ≡ model.next (state self.old) operation.now }
        ensures noted { result ≡ model.noted (state self.old) operation.now };

    // Restores the state before the step that the operation and the note came of.
    fn take_back(&mut self, operation: &Operation, note: Note)
        ensures { TakesBack model (state self.old) operation.now note (state self.new) };

    // What the question reads of the state.
    fn read(&self, question: &Question) -> Option<i64>
        ensures { result ≡ model.reads (state self.now) question.now };

    // What holds of every machine.
    ghost lawful: { Lawful model };
}

// Refuses an operation that the machine does not know.
pub fn check_operation<M: Machine>(operation: &Operation) -> Result<(), MachineFault>
    ensures { result ≡ known M.model operation.now }
{
    if M::knows(operation) {
        Ok(())
    } else {
        Err(MachineFault::UnknownOperation)
    }
}

// Refuses a question that the machine does not answer. This and `check_operation` stay two: one function for both would need a trait over
// operations and questions, whose two blocks name the method and the fault of each again.
pub fn check_question<M: Machine>(question: &Question) -> Result<(), MachineFault>
    ensures { result ≡ answered M.model question.now }
{
    if M::answers(question) {
        Ok(())
    } else {
        Err(MachineFault::UnansweredQuestion)
    }
}
