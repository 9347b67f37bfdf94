// Which survey dates there are, their order and their bytes.
use crate::date_laws::{assert_bytes, assert_order};
use dates::{Date, SurveyDate};
use std::process::Abort;
use std::test::Fail;

pub(crate) fn date(year: u16, month: u8, day: u8) -> Result<SurveyDate, Fail> {
    SurveyDate::new(year, month, day).map_err(Fail::new)
}

// Each date exists or not, as is written beside it.
fn assert_existence(rt: &impl Abort, dates: &[(u16, u8, u8, bool)]) {
    for &(year, month, day, exists) in dates {
        let found = SurveyDate::new(year, month, day);
        assert_eq!(rt; found.is_ok(), exists, "{year}-{month}-{day}");
    }
}

fn assert_no_dates(rt: &impl Abort, forms: &[[u8; 4]]) {
    for bytes in forms {
        assert!(rt; SurveyDate::from_bytes(*bytes).is_err(), "{bytes:?}");
    }
}

#[test]
fn the_kind_is_2(rt: HostRuntime) {
    assert_eq!(rt; SurveyDate::kind(), 2);
}

#[test]
fn the_years_are_1_to_9999(rt: HostRuntime) {
    assert_existence(
        &rt,
        &[
            (0, 0, 0, false),
            (0, 1, 1, false),
            (1, 0, 0, true),
            (1, 1, 1, true),
            (9999, 12, 31, true),
            (10000, 0, 0, false),
            (10000, 1, 1, false),
            (u16::MAX, 12, 31, false),
        ],
    );
}

#[test]
fn a_day_may_be_unknown_and_is_where_the_month_is(rt: HostRuntime) {
    assert_existence(
        &rt,
        &[
            (1987, 6, 0, true),
            (1987, 0, 0, true),
            (1987, 0, 1, false),
            (1987, 0, 5, false),
        ],
    );
}

#[test]
fn the_months_end_at_12(rt: HostRuntime) {
    assert_existence(
        &rt,
        &[
            (1987, 12, 0, true),
            (1987, 12, 1, true),
            (1987, 13, 0, false),
            (1987, 13, 1, false),
            (1987, u8::MAX, 0, false),
        ],
    );
}

#[test]
fn a_month_ends_with_its_last_day(rt: HostRuntime) {
    assert_existence(
        &rt,
        &[
            (1987, 1, 31, true),
            (1987, 1, 32, false),
            (1987, 4, 30, true),
            (1987, 4, 31, false),
            (1987, 12, 31, true),
            (1987, 12, 32, false),
            (1987, 12, u8::MAX, false),
        ],
    );
}

#[test]
fn february_has_29_days_in_a_leap_year_alone(rt: HostRuntime) {
    assert_existence(
        &rt,
        &[
            (1987, 2, 28, true),
            (1987, 2, 29, false),
            (1987, 2, 30, false),
            (1988, 2, 29, true),
            (1988, 2, 30, false),
            (1900, 2, 29, false),
            (2000, 2, 29, true),
            (2001, 2, 29, false),
        ],
    );
}

#[test]
fn the_year_decides_then_the_month_then_the_day_and_unknown_is_earlier(
    rt: HostRuntime,
) -> Result<(), Fail> {
    assert_order(
        &rt,
        &[
            date(1986, 12, 31)?,
            date(1987, 0, 0)?,
            date(1987, 1, 0)?,
            date(1987, 1, 1)?,
            date(1987, 1, 31)?,
            date(1987, 2, 0)?,
            date(1988, 1, 1)?,
        ],
    );
    Ok(())
}

#[test]
fn the_year_comes_first_in_the_bytes_with_its_low_byte_first(rt: HostRuntime) -> Result<(), Fail> {
    assert_bytes(&rt, date(1, 0, 0)?, [1, 0, 0, 0])?;
    assert_bytes(&rt, date(1987, 6, 0)?, [0xC3, 0x07, 6, 0])?;
    assert_bytes(&rt, date(9999, 12, 31)?, [0x0F, 0x27, 12, 31])
}

#[test]
fn bytes_of_no_date_are_refused(rt: HostRuntime) {
    // 1987-0-5, 1900-2-29, 0-1-1, 10000-1-1, and the largest bytes.
    assert_no_dates(
        &rt,
        &[
            [0xC3, 0x07, 0, 5],
            [0x6C, 0x07, 2, 29],
            [0, 0, 1, 1],
            [0x10, 0x27, 1, 1],
            [0xFF; 4],
        ],
    );
}
