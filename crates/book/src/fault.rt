// Why a call on the entries gives nothing: it is refused, or there is no memory.
ghost use Rattle.std.specs.Prelude.{◌≡◌};
ghost use Rattle.std.specs.Result.{result_ok};
ghost use Rattle.book.specs.Answers.{refusal_in};
ghost use Rattle.book.specs.declared.fault.Fault.TheVariants.{Refused as IsRefused, NoMemory};
ghost use Rattle.book.specs.declared.refusal.Refusal.TheVariants.{Machine};

use crate::{Accepted, Refusal};
use machines::MachineFault;
use std::alloc::{AllocError, AllocFailed};

#[derive(Clone, Copy)]
pub enum Fault {
    Refused(Refusal),
    NoMemory,
}

impl Fault {
    // The refusal as an answer; for want of memory there is none. It is a method and no `From`: for
    // `into` a caller would have to write this long type.
    pub fn answer(self) -> Result<Result<Accepted, Refusal>, AllocError>
        ensures { result_ok result ≡ refusal_in self }
    {
        match self {
            Fault::Refused(refusal) => Ok(Err(refusal)),
            Fault::NoMemory => Err(AllocError),
        }
    }
}

// The conversions are written out, since a clause names the error that `?` makes, and those that a derive writes have no contract.
impl From<MachineFault> for Fault {
    ghost from_gives = { λ fault r. r ≡ IsRefused (Machine fault) };

    fn from(fault: MachineFault) -> Fault {
        Fault::Refused(fault.into())
    }
}

impl From<AllocError> for Fault {
    ghost from_gives = { λ _ r. r ≡ NoMemory };

    fn from(_: AllocError) -> Fault {
        Fault::NoMemory
    }
}

impl<T: Drop> From<AllocFailed<T>> for Fault {
    ghost from_gives = { λ _ r. r ≡ NoMemory };

    fn from(_: AllocFailed<T>) -> Fault {
        Fault::NoMemory
    }
}
