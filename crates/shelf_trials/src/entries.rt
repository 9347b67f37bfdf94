// Dates, operations and watches of the tests. The crate `trials` makes days and operations by functions of the same names:
// both are programs, and no library stands under both that only tests would use.
use dates::{DayNumber, SurveyDate};
use machines::Operation;
use primitives::{CHANGE, DRAW, ORDER};
use std::test::Fail;
use watches::CellWatch;

pub(crate) fn day(number: i32) -> DayNumber {
    DayNumber::new(number)
}

pub(crate) fn survey_date(year: u16, month: u8, day: u8) -> Result<SurveyDate, Fail> {
    SurveyDate::new(year, month, day).map_err(Fail::new)
}

fn operation(code: u16, place: u16, amount: i32) -> Operation {
    Operation {
        code,
        place,
        amount,
    }
}

pub(crate) fn change(cell: u16, amount: i32) -> Operation {
    operation(CHANGE, cell, amount)
}

pub(crate) fn order(job: i32) -> Operation {
    operation(ORDER, 0, job)
}

pub(crate) fn draw() -> Operation {
    operation(DRAW, 0, 0)
}

// The watch of that cell.
pub(crate) fn cell(number: u16) -> Result<CellWatch, Fail> {
    CellWatch::new(number).ok_or_else(|| Fail::new("no such cell"))
}
