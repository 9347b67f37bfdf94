// How the dates of each kind are written in a script.
ghost use Rattle.std.specs.Prelude.{◌≡◌, ℕ, List, Option, Result};
ghost use Rattle.dates.specs.declared.fault.NoSuchDate.{NoSuchDate};
ghost use Rattle.script.specs.Written.{day_written, parts, survey_written};

use dates::{Date, DayNumber, NoSuchDate, SurveyDate};
use words::read_number;

pub trait WrittenDate: Date {
    // What a word says: none where it is not written as a date of this kind, and else the date, or that there is no such.
    ghost written: { List ℕ → Option (Result Self NoSuchDate) };

    fn read(word: &str) -> Option<Result<Self, NoSuchDate>>
        ensures { result ≡ written word.now };
}

impl WrittenDate for DayNumber {
    ghost written = { day_written };

    fn read(word: &str) -> Option<Result<DayNumber, NoSuchDate>> {
        Some(Ok(DayNumber::new(read_number(word)?)))
    }
}

// The year, the month and the day of a survey date; a part that is left out is unknown, 0.
fn parts_of(word: &str) -> (&str, &str, &str)
    ensures year { result.0.now ≡ (parts word.now).0 }
    ensures month { result.1.now ≡ (parts word.now).1 }
    ensures day { result.2.now ≡ (parts word.now).2 }
{
    let Some((year, rest)) = word.split_once('-') else {
        return (word, "0", "0");
    };
    let Some((month, day)) = rest.split_once('-') else {
        return (year, rest, "0");
    };
    (year, month, day)
}

impl WrittenDate for SurveyDate {
    ghost written = { survey_written };

    fn read(word: &str) -> Option<Result<SurveyDate, NoSuchDate>> {
        let (year, month, day) = parts_of(word);
        Some(SurveyDate::new(read_number(year)?, read_number(month)?, read_number(day)?))
    }
}
