// Survey dates: year, month and day, where month 0 and day 0 mean unknown.
ghost use Rattle.std.specs.Prelude.{◌≡◌, true};
ghost use Rattle.dates.specs.Calendar.{exists};

mod calendar;
pub mod kind;

// Unknown is 0 in the fields too, and no Option: the bytes, the order and what a script writes take it as that number.
// The order goes by the fields from first to last: the year, then the month, then the day, as numbers.
#[derive(Clone, Copy, PartialEq, Eq, PartialOrd, Ord)]
pub struct SurveyDate {
    year: u16,
    month: u8,
    day: u8,
    // Only a date that exists can be held.
    ghost real: { exists year month day ≡ true },
}
