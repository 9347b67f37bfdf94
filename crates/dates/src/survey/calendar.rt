// Which survey dates exist.
ghost use Rattle.std.specs.Prelude.{◌≡◌};
ghost use Rattle.dates.specs.Calendar.{leap, exists};

// The lengths of the twelve months, in a plain year and in a leap year.
const MONTH_LENGTHS: [[u8; 12]; 2] = [
    [31, 28, 31, 30, 31, 30, 31, 31, 30, 31, 30, 31],
    [31, 29, 31, 30, 31, 30, 31, 31, 30, 31, 30, 31],
];

fn is_leap(year: u16) -> bool
    ensures { result ≡ leap year }
{
    year % 400 == 0 || year % 4 == 0 && year % 100 != 0
}

// An unknown month requires an unknown day; a day of 0 is unknown, so it is within every known month.
pub(super) fn is_date(year: u16, month: u8, day: u8) -> bool
    ensures { result ≡ exists year month day }
{
    if !(1..=9999).contains(&year) || 12 < month {
        return false;
    }
    if month == 0 {
        return day == 0;
    }
    // `as`, and no `From`, since a year and a month index a table here and no number is lost.
    day <= MONTH_LENGTHS[is_leap(year) as usize][month as usize - 1]
}
