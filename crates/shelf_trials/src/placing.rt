// Where an entry goes in book order, and the rotations that keep the tree balanced.
use crate::entries::{cell, change, survey_date};
use crate::trial::Trial;
use dates::SurveyDate;
use shelf::{add, count_before, count_up_to, no_root};
use slots::Slot;
use std::test::Fail;
use watches::Sum;

#[test]
fn an_entry_goes_behind_others_of_its_date(rt: HostRuntime) -> Result<(), Fail> {
    let mut slots = [Slot::blank(); 8];
    let mut shelf = Trial::new(cell(0)?, &mut slots);
    shelf.enter_days(&[5, 5, 3, 5])?;
    assert_eq!(rt; shelf.find(0), Some(2));
    assert_eq!(rt; shelf.find(1), Some(0));
    assert_eq!(rt; shelf.find(2), Some(1));
    assert_eq!(rt; shelf.find(3), Some(3));
    Ok(())
}

#[test]
fn a_late_entry_goes_between_earlier_and_later_ones(rt: HostRuntime) -> Result<(), Fail> {
    let mut slots = [Slot::blank(); 8];
    let mut shelf = Trial::new(cell(0)?, &mut slots);
    shelf.enter_days(&[10, 20, 30, 25])?;
    assert_eq!(rt; shelf.find(0), Some(0));
    assert_eq!(rt; shelf.find(1), Some(1));
    assert_eq!(rt; shelf.find(2), Some(3));
    assert_eq!(rt; shelf.find(3), Some(2));
    Ok(())
}

#[test]
fn days_go_by_their_numbers_and_not_by_their_bytes(rt: HostRuntime) -> Result<(), Fail> {
    let mut slots = [Slot::blank(); 8];
    let mut shelf = Trial::new(cell(0)?, &mut slots);
    shelf.enter_days(&[i32::MAX, 256, 1, -1, i32::MIN])?;
    assert_eq!(rt; shelf.find(0), Some(4));
    assert_eq!(rt; shelf.find(1), Some(3));
    assert_eq!(rt; shelf.find(2), Some(2));
    assert_eq!(rt; shelf.find(3), Some(1));
    assert_eq!(rt; shelf.find(4), Some(0));
    Ok(())
}

#[test]
fn an_unknown_day_goes_before_the_known_ones(rt: HostRuntime) -> Result<(), Fail> {
    let watch = cell(0)?;
    let mut shelf = [Slot::blank(); 2];
    let known = survey_date(1987, 6, 1)?;
    let unknown = survey_date(1987, 6, 0)?;
    let root = no_root::<SurveyDate, Sum>();
    let root = add(&mut shelf, root, 0, &known, change(0, 1), &watch).ok_or("refused")?;
    let root = add(&mut shelf, root, 1, &unknown, change(0, 1), &watch);
    assert_eq!(rt; root, Some(0));
    assert_eq!(rt; count_before::<SurveyDate, Sum>(&shelf, 0, 0), 1);
    assert_eq!(rt; count_up_to(&shelf, 0, &unknown), 1);
    assert_eq!(rt; count_up_to(&shelf, 0, &survey_date(1987, 0, 0)?), 0);
    Ok(())
}

#[test]
fn of_days_1_3_2_the_middle_comes_to_the_top(rt: HostRuntime) -> Result<(), Fail> {
    let mut slots = [Slot::blank(); 8];
    let mut shelf = Trial::new(cell(0)?, &mut slots);
    shelf.enter_days(&[1, 3, 2])?;
    assert_eq!(rt; shelf.root, 2);
    assert_eq!(rt; shelf.tree_at(2), Some((0, 1, 2)));
    Ok(())
}

#[test]
fn of_days_3_1_2_the_middle_comes_to_the_top(rt: HostRuntime) -> Result<(), Fail> {
    let mut slots = [Slot::blank(); 8];
    let mut shelf = Trial::new(cell(0)?, &mut slots);
    shelf.enter_days(&[3, 1, 2])?;
    assert_eq!(rt; shelf.root, 2);
    assert_eq!(rt; shelf.tree_at(2), Some((1, 0, 2)));
    Ok(())
}

// The shelf that the documents draw, with its fourth entry voided.
#[test]
fn the_shelf_of_five_entries_is_chained_as_drawn(rt: HostRuntime) -> Result<(), Fail> {
    let mut slots = [Slot::blank(); 8];
    let mut shelf = Trial::new(cell(0)?, &mut slots);
    shelf.enter(20, change(0, 4))?;
    shelf.enter(10, change(0, 5))?;
    shelf.enter(30, change(0, -2))?;
    shelf.enter(12, change(0, 7))?;
    shelf.enter(30, change(0, 1))?;
    shelf.void(3);
    assert_eq!(rt; shelf.root, 0);
    assert_eq!(rt; shelf.tree_at(0), Some((1, 2, 3)));
    assert_eq!(rt; shelf.tree_at(1), Some((u16::MAX, 3, 2)));
    assert_eq!(rt; shelf.tree_at(2), Some((u16::MAX, 4, 2)));
    assert_eq!(rt; shelf.find(0), Some(1));
    assert_eq!(rt; shelf.find(3), Some(4));
    assert_eq!(rt; shelf.count_up_to(25), 2);
    assert_eq!(rt; shelf.checked_figure_up_to(rt.alloc(), 25)?, 9);
    assert_eq!(rt; shelf.checked_figure_up_to(rt.alloc(), 30)?, 8);
    Ok(())
}

#[test]
fn seven_rising_days_have_3_levels(rt: HostRuntime) -> Result<(), Fail> {
    let mut slots = [Slot::blank(); 8];
    let mut shelf = Trial::new(cell(0)?, &mut slots);
    shelf.enter_days(&[1, 2, 3, 4, 5, 6, 7])?;
    assert_eq!(rt; shelf.root, 3);
    assert_eq!(rt; shelf.tree_at(3), Some((1, 5, 3)));
    assert_eq!(rt; shelf.tree_at(1), Some((0, 2, 2)));
    assert_eq!(rt; shelf.tree_at(5), Some((4, 6, 2)));
    Ok(())
}
