// Why a call is refused.
ghost use Rattle.std.specs.Prelude.{◌≡◌, Some};
ghost use Rattle.book.specs.Refusals.{number, giver, words};
ghost use Rattle.book.specs.declared.refusal.Refusal.TheVariants.{Date, Machine};

use dates::NoSuchDate;
use machines::MachineFault;
use std::fmt;

#[derive(Clone, Copy)]
pub enum Refusal {
    Date(NoSuchDate),
    Machine(MachineFault),
}

impl Refusal {
    // The number under which it is refused, for those who read it: the code goes by the enum.
    pub fn number(&self) -> u16
        ensures { result ≡ number self.now }
    {
        match self {
            Refusal::Date(fault) => fault.number(),
            Refusal::Machine(fault) => fault.number(),
        }
    }

    // Who refuses.
    pub fn giver(&self) -> &'static str
        ensures { result.now ≡ giver self.now }
    {
        match self {
            Refusal::Date(fault) => fault.giver(),
            Refusal::Machine(fault) => fault.giver(),
        }
    }
}

// The conversions are written out, since a clause names what they make, and those that a derive writes have no contract.
impl From<NoSuchDate> for Refusal {
    ghost from_gives = { λ fault r. r ≡ Date fault };

    fn from(fault: NoSuchDate) -> Refusal {
        Refusal::Date(fault)
    }
}

impl From<MachineFault> for Refusal {
    ghost from_gives = { λ fault r. r ≡ Machine fault };

    fn from(fault: MachineFault) -> Refusal {
        Refusal::Machine(fault)
    }
}

impl fmt::Display for Refusal {
    ghost output = { λ refusal. Some (words refusal) };

    fn fmt<W: fmt::Write>(&self, f: &mut fmt::Formatter<W>) -> fmt::Result {
        match self {
            Refusal::Date(fault) => write!(f, "{fault}"),
            Refusal::Machine(fault) => write!(f, "{fault}"),
        }
    }
}
