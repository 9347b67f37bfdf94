// What a script is made of.
use book::Call;
use dates::{DayNumber, NoSuchDate, SurveyDate};
use words::Reason;

// The kind of date that a script names.
#[derive(Clone, Copy)]
pub enum Kind {
    Days,
    Survey,
}

// What a line before the first call may be.
#[derive(Clone, Copy)]
pub enum Setting {
    Blank,
    Named(Kind),
    Begun,
}

// A call with the number of its line, from 1. Where there is no such date, the call is refused for it.
#[derive(PartialEq, Eq, Drop)]
pub struct Line<D> {
    pub number: usize,
    pub call: Result<Call<D>, NoSuchDate>,
}

// The calls of a script, by the kind of their dates.
#[derive(Drop)]
pub enum Script {
    OfDays(Vec<Line<DayNumber>>),
    OfSurveys(Vec<Line<SurveyDate>>),
}

// Why a script cannot be read: a line, by its number, is no command, or there is no memory.
#[derive(Clone, Copy, Debug)]
pub enum ScriptFault {
    BadLine(usize, Reason),
    NoMemory,
}
