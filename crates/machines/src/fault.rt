// What a machine refuses.
ghost use Rattle.std.specs.Prelude.{◌≡◌, Some};
ghost use Rattle.machines.specs.Refusals.{number, giver, words};

use std::fmt;

#[derive(Clone, Copy, PartialEq, Eq)]
pub enum MachineFault {
    // The machine does not know the operation.
    UnknownOperation,
    // The machine does not answer the question.
    UnansweredQuestion,
}

impl MachineFault {
    // The number under which it is refused, for those who read it: the code goes by the enum.
    pub fn number(&self) -> u16
        ensures { result ≡ number self.now }
    {
        match self {
            MachineFault::UnknownOperation => 2,
            MachineFault::UnansweredQuestion => 6,
        }
    }

    // Who refuses.
    pub fn giver(&self) -> &'static str
        ensures { result.now ≡ giver self.now }
    {
        "machine"
    }
}

impl fmt::Display for MachineFault {
    ghost output = { λ fault. Some (words fault) };

    fn fmt<W: fmt::Write>(&self, f: &mut fmt::Formatter<W>) -> fmt::Result {
        match self {
            MachineFault::UnknownOperation => f.write_str("operation not known"),
            MachineFault::UnansweredQuestion => f.write_str("question not answered"),
        }
    }
}
