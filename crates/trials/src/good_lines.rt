// Scripts that are read, and the calls that they make.
use crate::runs::{operation, question};
use crate::survey_dates::date;
use book::Call::{self, Ask, Enter};
use dates::{DayNumber, NoSuchDate, SurveyDate};
use script::{Line, Script, parse};
use std::alloc::Global;
use std::process::Abort;
use std::test::Fail;

fn day(number: i32) -> DayNumber {
    DayNumber::new(number)
}

fn line<D>(number: usize, call: Result<Call<D>, NoSuchDate>) -> Line<D> {
    Line { number, call }
}

// The lines of a script of days.
fn read_days(heap: Global, text: &str) -> Result<Vec<Line<DayNumber>>, Fail> {
    match parse(heap, text).map_err(Fail::new)? {
        Script::OfDays(lines) => Ok(lines),
        Script::OfSurveys(_) => Err(Fail::new("a script of survey dates")),
    }
}

// The lines of a script of survey dates. It stays apart from the one above: each takes another variant, with lines of another type.
fn read_surveys(heap: Global, text: &str) -> Result<Vec<Line<SurveyDate>>, Fail> {
    match parse(heap, text).map_err(Fail::new)? {
        Script::OfDays(_) => Err(Fail::new("a script of days")),
        Script::OfSurveys(lines) => Ok(lines),
    }
}

// Line by line, so that a failure names the line.
fn assert_lines<D: PartialEq>(rt: &impl Abort, found: &[Line<D>], expected: &[Line<D>]) {
    assert_eq!(rt; found.len(), expected.len());
    for (read, wanted) in found.iter().zip(expected) {
        assert!(rt; read == wanted, "line {}", wanted.number);
    }
}

#[test]
fn a_script_with_no_call_is_read(rt: HostRuntime) -> Result<(), Fail> {
    assert!(rt; read_days(rt.alloc(), "")?.is_empty());
    assert!(rt; read_days(rt.alloc(), "\n \t\r\n# enter 10 draw")?.is_empty());
    assert!(rt; read_surveys(rt.alloc(), "dates survey")?.is_empty());
    Ok(())
}

#[test]
fn the_last_kind_named_before_the_first_call_stands(rt: HostRuntime) -> Result<(), Fail> {
    let lines = read_days(rt.alloc(), "dates days\nask 10 waiting")?;
    assert_lines(
        &rt,
        lines.as_slice(),
        &[line(2, Ok(Ask(day(10), question(2, 0, 0))))],
    );
    assert!(rt; read_days(rt.alloc(), "dates survey\n\ndates days")?.is_empty());
    Ok(())
}

#[test]
fn each_operation_is_read(rt: HostRuntime) -> Result<(), Fail> {
    let lines = read_days(
        rt.alloc(),
        "enter 10 change 1 5\n\
         enter 10 order 7\n\
         enter 10 draw\n\
         enter 10 set 2 3\n\
         enter 10 op 65535 65535 -2147483648",
    )?;
    assert_lines(
        &rt,
        lines.as_slice(),
        &[
            line(1, Ok(Enter(day(10), operation(1, 1, 5)))),
            line(2, Ok(Enter(day(10), operation(2, 0, 7)))),
            line(3, Ok(Enter(day(10), operation(3, 0, 0)))),
            line(4, Ok(Enter(day(10), operation(4, 2, 3)))),
            line(5, Ok(Enter(day(10), operation(65535, 65535, -2147483648)))),
        ],
    );
    Ok(())
}

#[test]
fn each_question_is_read(rt: HostRuntime) -> Result<(), Fail> {
    let lines = read_days(
        rt.alloc(),
        "ask 10 count 1\n\
         ask 10 waiting\n\
         ask 10 job 7\n\
         ask 10 status 2\n\
         ask 10 question 65535 65535 2147483647",
    )?;
    assert_lines(
        &rt,
        lines.as_slice(),
        &[
            line(1, Ok(Ask(day(10), question(1, 1, 0)))),
            line(2, Ok(Ask(day(10), question(2, 0, 0)))),
            line(3, Ok(Ask(day(10), question(3, 0, 7)))),
            line(4, Ok(Ask(day(10), question(4, 2, 0)))),
            line(5, Ok(Ask(day(10), question(65535, 65535, 2147483647)))),
        ],
    );
    Ok(())
}

#[test]
fn numbers_may_have_signs_and_leading_zeros(rt: HostRuntime) -> Result<(), Fail> {
    let lines = read_days(
        rt.alloc(),
        "enter +5 change +1 -5\n\
         enter -5 change 001 +5\n\
         enter -2147483648 draw\n\
         enter 2147483647 draw",
    )?;
    assert_lines(
        &rt,
        lines.as_slice(),
        &[
            line(1, Ok(Enter(day(5), operation(1, 1, -5)))),
            line(2, Ok(Enter(day(-5), operation(1, 1, 5)))),
            line(3, Ok(Enter(day(-2147483648), operation(3, 0, 0)))),
            line(4, Ok(Enter(day(2147483647), operation(3, 0, 0)))),
        ],
    );
    Ok(())
}

#[test]
fn comments_and_blanks_are_left_out(rt: HostRuntime) -> Result<(), Fail> {
    let lines = read_days(
        rt.alloc(),
        "# a comment\n\
         \n\
         \tenter\t10  draw # another\r\n\
         \t \r\n\
         enter 11 draw#\r\n\
         enter 12 draw",
    )?;
    assert_lines(
        &rt,
        lines.as_slice(),
        &[
            line(3, Ok(Enter(day(10), operation(3, 0, 0)))),
            line(5, Ok(Enter(day(11), operation(3, 0, 0)))),
            line(6, Ok(Enter(day(12), operation(3, 0, 0)))),
        ],
    );
    Ok(())
}

#[test]
fn the_parts_of_a_survey_date_may_be_left_out(rt: HostRuntime) -> Result<(), Fail> {
    let lines = read_surveys(
        rt.alloc(),
        "dates survey\n\
         enter 1987 draw\n\
         enter 1987-6 draw\n\
         enter 1987-6-0 draw\n\
         ask 2000-02-29 waiting",
    )?;
    assert_lines(
        &rt,
        lines.as_slice(),
        &[
            line(2, Ok(Enter(date(1987, 0, 0)?, operation(3, 0, 0)))),
            line(3, Ok(Enter(date(1987, 6, 0)?, operation(3, 0, 0)))),
            line(4, Ok(Enter(date(1987, 6, 0)?, operation(3, 0, 0)))),
            line(5, Ok(Ask(date(2000, 2, 29)?, question(2, 0, 0)))),
        ],
    );
    Ok(())
}

#[test]
fn a_date_that_does_not_exist_is_no_error_of_the_script(rt: HostRuntime) -> Result<(), Fail> {
    let lines = read_surveys(
        rt.alloc(),
        "dates survey\n\
         enter 1900-2-29 draw\n\
         ask 1987-0-5 waiting\n\
         enter 65535-255-255 draw\n\
         enter 1987 draw",
    )?;
    assert_lines(
        &rt,
        lines.as_slice(),
        &[
            line(2, Err(NoSuchDate)),
            line(3, Err(NoSuchDate)),
            line(4, Err(NoSuchDate)),
            line(5, Ok(Enter(date(1987, 0, 0)?, operation(3, 0, 0)))),
        ],
    );
    Ok(())
}
