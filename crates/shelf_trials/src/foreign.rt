// Shelves of content that no call wrote: every call returns, and writes its own entry.
use crate::entries::{cell, change, day, survey_date};
use dates::{Date, DayNumber, SurveyDate};
use shelf::{add, count_before, count_up_to, figure_up_to, find, void};
use slots::Slot;
use std::test::Fail;
use watches::{CellWatch, Sum};

// A standing entry that changes cell 0 by 1 on day -1, whose bytes are those of no survey date.
fn linked(left: u16, right: u16, level: u16, count: u16, total: i64) -> Slot<Sum> {
    Slot {
        date: day(-1).to_bytes(),
        operation: change(0, 1),
        standing: true,
        left,
        right,
        level,
        count,
        joined: Sum { total },
        ..Slot::blank()
    }
}

// The largest figures do not overflow.
#[test]
fn slots_that_link_to_themselves_with_the_largest_figures_are_safe(
    rt: HostRuntime,
) -> Result<(), Fail> {
    let watch = cell(0)?;
    let mut shelf = [
        linked(0, 0, u16::MAX, u16::MAX, i64::MAX),
        linked(1, 1, u16::MAX, u16::MAX, i64::MAX),
    ];
    assert_eq!(rt; count_up_to(&shelf, 0, &day(-2)), 0);
    assert_eq!(rt; count_up_to(&shelf, 0, &day(-1)), u16::MAX);
    assert_eq!(rt; figure_up_to(&shelf, 0, &day(-1), &watch), i64::MAX);
    assert_eq!(rt; count_before::<DayNumber, Sum>(&shelf, 0, 1), u16::MAX);
    assert_eq!(rt; find::<DayNumber, Sum>(&shelf, 0, 0), None);
    assert_eq!(rt; find::<DayNumber, Sum>(&shelf, 0, u16::MAX), Some(0));
    assert_eq!(rt;
        add(&mut shelf, 0, 1, &day(-1), change(0, 2), &watch),
        Some(0)
    );
    void::<DayNumber, CellWatch>(&mut shelf, 0, 0, &watch);
    assert_eq!(rt; (shelf[0].standing, shelf[1].operation.amount), (false, 2));
    Ok(())
}

// A way down ends after 14 levels, each of which counts two.
#[test]
fn links_in_a_circle_are_safe(rt: HostRuntime) -> Result<(), Fail> {
    let watch = cell(0)?;
    let mut shelf = [
        linked(1, 2, 1, 1, 1),
        linked(2, 0, 1, 1, 1),
        linked(0, 1, 1, 1, 1),
    ];
    assert_eq!(rt; count_up_to(&shelf, 0, &day(-2)), 0);
    assert_eq!(rt; count_up_to(&shelf, 0, &day(-1)), 28);
    assert_eq!(rt; figure_up_to(&shelf, 0, &day(-1), &watch), 28);
    assert_eq!(rt; find::<DayNumber, Sum>(&shelf, 0, 0), None);
    assert_eq!(rt; find::<DayNumber, Sum>(&shelf, 0, 27), Some(2));
    assert_eq!(rt; find::<DayNumber, Sum>(&shelf, 0, 28), None);
    assert!(rt; add(&mut shelf, 0, 2, &day(-1), change(0, 2), &watch).is_some());
    void::<DayNumber, CellWatch>(&mut shelf, 0, 0, &watch);
    assert_eq!(rt; (shelf[0].standing, shelf[2].operation.amount), (false, 2));
    Ok(())
}

// What is no date comes before all dates.
#[test]
fn dates_that_are_no_dates_are_safe(rt: HostRuntime) -> Result<(), Fail> {
    let watch = cell(0)?;
    let none = u16::MAX;
    let mut shelf = [
        linked(none, 1, 3, 3, 3),
        linked(none, 2, 2, 2, 2),
        linked(none, none, 1, 1, 1),
        Slot::blank(),
    ];
    let first = survey_date(1, 0, 0)?;
    assert_eq!(rt; count_up_to(&shelf, 0, &first), 3);
    assert_eq!(rt; count_before::<SurveyDate, Sum>(&shelf, 0, 2), 0);
    void::<SurveyDate, CellWatch>(&mut shelf, 0, 1, &watch);
    assert!(rt; !shelf[1].standing);
    let root = add(&mut shelf, 0, 3, &first, change(0, 1), &watch).ok_or("refused")?;
    assert_eq!(rt; count_before::<SurveyDate, Sum>(&shelf, root, 3), 2);
    Ok(())
}
