// Survey dates as a kind of date.
ghost use Rattle.std.specs.Prelude.{◌≡◌, true};
ghost use Rattle.dates.specs.Cases.{CalendarCases};
ghost use Rattle.dates.specs.Survey.{dated, places, survey_dates};
ghost use Rattle.dates.specs.SurveyLaws.{survey_lawful, survey_ordered};

use crate::survey::calendar::is_date;
use crate::{Date, NoSuchDate, SurveyDate};

impl SurveyDate {
    // Refused where there is no such date. The `if` stays: the ghost field is shown from its test, which a closure of `then` would not see.
    pub fn new(year: u16, month: u8, day: u8) -> Result<SurveyDate, NoSuchDate>
        ensures { result ≡ dated year month day }
    {
        if is_date(year, month, day) {
            Ok(SurveyDate { year, month, day })
        } else {
            Err(NoSuchDate)
        }
    }
}

impl Date for SurveyDate {
    ghost model = { survey_dates };

    ghost ordered = { survey_ordered };

    ghost lawful = { survey_lawful };

    fn kind() -> u16 {
        2
    }

    fn to_bytes(&self) -> [u8; 4] {
        let [low, high] = self.year.to_le_bytes();
        [low, high, self.month, self.day]
    }

    fn from_bytes(bytes: [u8; 4]) -> Result<SurveyDate, NoSuchDate> {
        let [low, high, month, day] = bytes;
        SurveyDate::new(u16::from_le_bytes([low, high]), month, day)
    }
}

// Worked cases of the calendar, shown by computation; the answer says that they hold.
pub fn calendar_cases() -> bool
    ensures answer { result ≡ true }
    ensures cases { CalendarCases }
{
    true
}
