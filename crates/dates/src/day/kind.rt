// Day numbers as a kind of date.
ghost use Rattle.std.specs.Prelude.{◌≡◌, refl};
ghost use Rattle.dates.specs.Day.{day_numbers, numbered};
ghost use Rattle.dates.specs.DayLaws.{day_lawful};

use crate::{Date, DayNumber, NoSuchDate};

impl DayNumber {
    pub fn new(number: i32) -> DayNumber
        ensures whole { result ≡ numbered number }
        ensures number { result.number ≡ number }
    {
        DayNumber { number }
    }
}

impl Date for DayNumber {
    ghost model = { day_numbers };

    ghost ordered = { λ _ _. refl };

    ghost lawful = { day_lawful };

    fn kind() -> u16 {
        1
    }

    fn to_bytes(&self) -> [u8; 4] {
        self.number.to_le_bytes()
    }

    fn from_bytes(bytes: [u8; 4]) -> Result<DayNumber, NoSuchDate> {
        Ok(DayNumber::new(i32::from_le_bytes(bytes)))
    }
}
