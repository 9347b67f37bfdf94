// Kinds of date: each has a number, a total order and a form of four bytes.
#![tactic(auto)]

pub mod date;
pub mod day;
pub mod fault;
pub mod survey;

pub use date::Date;
pub use day::DayNumber;
pub use fault::NoSuchDate;
pub use survey::SurveyDate;
pub use survey::kind::calendar_cases;
