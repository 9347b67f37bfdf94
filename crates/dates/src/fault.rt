// What a kind of date refuses with.
ghost use Rattle.std.specs.Prelude.{◌≡◌, Some};
ghost use Rattle.dates.specs.Refusals.{no_such_date};

use std::fmt;

// There is no such date of this kind.
#[derive(Clone, Copy, PartialEq, Eq)]
pub struct NoSuchDate;

impl NoSuchDate {
    // The number of the refusal, for those who read it: the code goes by the type.
    pub fn number(&self) -> u16
        ensures { result ≡ no_such_date.number }
    {
        1
    }

    // Who refuses.
    pub fn giver(&self) -> &'static str
        ensures { result.now ≡ no_such_date.giver }
    {
        "date"
    }
}

impl fmt::Display for NoSuchDate {
    ghost output = { λ _. Some no_such_date.words };

    fn fmt<W: fmt::Write>(&self, f: &mut fmt::Formatter<W>) -> fmt::Result {
        f.write_str("no such date")
    }
}
