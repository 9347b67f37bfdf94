// Day numbers: each day has a number, and 0 is 1970-01-01.
ghost use Rattle.std.specs.Prelude.{◌≡◌, ◌^◌, ◌<◌};
ghost use Rattle.std.specs.Int.Signed.{mag};

pub mod kind;

#[derive(Clone, Copy, PartialEq, Eq, PartialOrd, Ord)]
pub struct DayNumber {
    number: i32,
    // The number is one that an i32 holds: `mag` is n both of n and of -(n + 1).
    ghost fits: { mag number < 2 ^ 31 },
}

impl DayNumber {
    // Days since 1970-01-01, negative before it.
    pub fn number(&self) -> i32
        ensures { result ≡ self.now.number }
    {
        self.number
    }
}
