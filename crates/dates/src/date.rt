// The interface of a kind of date.
ghost use Rattle.std.specs.Prelude.{◌≡◌};
ghost use Rattle.dates.specs.Model.{DateModel, Lawful, compared};

use crate::NoSuchDate;

// A kind of date has a number, a total order and a form of four bytes. A date means its value: two dates are equal or one is earlier.
pub trait Date: Copy + Ord {
    // The number, the order and the form of the kind.
    ghost model: { DateModel Self };

    // The number of the kind. The code goes by the type, and there is no enum of the kinds: any type that keeps the laws may be one.
    fn kind() -> u16
        ensures { result ≡ model.kind };

    // The four bytes of the date.
    fn to_bytes(&self) -> [u8; 4]
        ensures { result ≡ model.bytes self.now };

    // The date of these bytes, or the refusal where there is none.
    fn from_bytes(bytes: [u8; 4]) -> Result<Self, NoSuchDate>
        ensures { result ≡ model.given bytes };

    // `cmp` answers Less where the first date is earlier than the second, and Greater where it is later.
    ghost ordered: { (a b : Self) → Self.cmp a b ≡ compared model a b };

    // What every kind keeps.
    ghost lawful: { Lawful model };
}
