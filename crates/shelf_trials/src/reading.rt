// What the calls that read a shelf answer, before and after entries are voided.
use crate::entries::{cell, change, draw, order};
use crate::trial::Trial;
use primitives::Queue;
use slots::Slot;
use std::test::Fail;
use watches::{CellWatch, First, WaitingWatch};

#[test]
fn a_count_up_to_a_date_includes_that_date(rt: HostRuntime) -> Result<(), Fail> {
    let mut slots = [Slot::blank(); 8];
    let mut shelf = Trial::new(cell(0)?, &mut slots);
    assert_eq!(rt; shelf.count_up_to(i32::MAX), 0);
    shelf.enter_days(&[20, 10, 20])?;
    assert_eq!(rt; shelf.count_up_to(i32::MIN), 0);
    assert_eq!(rt; shelf.count_up_to(9), 0);
    assert_eq!(rt; shelf.count_up_to(10), 1);
    assert_eq!(rt; shelf.count_up_to(19), 1);
    assert_eq!(rt; shelf.count_up_to(20), 3);
    assert_eq!(rt; shelf.count_up_to(i32::MAX), 3);
    Ok(())
}

#[test]
fn the_standing_entries_in_front_of_an_entry_are_counted(rt: HostRuntime) -> Result<(), Fail> {
    let mut slots = [Slot::blank(); 8];
    let mut shelf = Trial::new(cell(0)?, &mut slots);
    shelf.enter_days(&[30, 10, 20, 20])?;
    assert_eq!(rt; shelf.count_before(0), 3);
    assert_eq!(rt; shelf.count_before(1), 0);
    assert_eq!(rt; shelf.count_before(2), 1);
    assert_eq!(rt; shelf.count_before(3), 2);
    shelf.void(2);
    assert_eq!(rt; shelf.count_before(2), 1);
    assert_eq!(rt; shelf.count_before(3), 1);
    assert_eq!(rt; shelf.count_before(8), 0);
    assert_eq!(rt; shelf.count_before(u16::MAX), 0);
    Ok(())
}

#[test]
fn none_is_found_past_the_last_standing_entry(rt: HostRuntime) -> Result<(), Fail> {
    let mut slots = [Slot::blank(); 8];
    let mut shelf = Trial::new(cell(0)?, &mut slots);
    assert_eq!(rt; shelf.find(0), None);
    shelf.enter_days(&[20, 10])?;
    assert_eq!(rt; shelf.find(1), Some(0));
    assert_eq!(rt; shelf.find(2), None);
    assert_eq!(rt; shelf.find(u16::MAX), None);
    shelf.void(0);
    assert_eq!(rt; shelf.find(0), Some(1));
    assert_eq!(rt; shelf.find(1), None);
    shelf.void(1);
    assert_eq!(rt; shelf.find(0), None);
    Ok(())
}

#[test]
fn a_voided_entry_is_neither_found_nor_counted_nor_joined(rt: HostRuntime) -> Result<(), Fail> {
    let mut slots = [Slot::blank(); 8];
    let mut shelf = Trial::new(cell(0)?, &mut slots);
    shelf.enter(10, change(0, 1))?;
    shelf.enter(20, change(0, 2))?;
    shelf.enter(30, change(0, 4))?;
    assert_eq!(rt; shelf.checked_figure_up_to(rt.alloc(), 30)?, 7);
    shelf.void(1);
    assert_eq!(rt; shelf.find(1), Some(2));
    assert_eq!(rt; shelf.count_up_to(20), 1);
    assert_eq!(rt; shelf.count_up_to(30), 2);
    assert_eq!(rt; shelf.checked_figure_up_to(rt.alloc(), 20)?, 1);
    assert_eq!(rt; shelf.checked_figure_up_to(rt.alloc(), 30)?, 5);
    Ok(())
}

#[test]
fn a_voided_entry_keeps_its_place(rt: HostRuntime) -> Result<(), Fail> {
    let mut slots = [Slot::blank(); 8];
    let mut shelf = Trial::new(cell(0)?, &mut slots);
    shelf.enter(10, change(0, 1))?;
    shelf.enter(20, change(0, 2))?;
    shelf.enter(30, change(0, 4))?;
    shelf.void(1);
    assert_eq!(rt; shelf.root, 1);
    assert_eq!(rt; shelf.tree_at(1), Some((0, 2, 2)));
    assert_eq!(rt; shelf.count_before(1), 1);
    shelf.enter(20, change(0, 8))?;
    assert_eq!(rt; shelf.tree_at(1), Some((0, 2, 3)));
    assert_eq!(rt; shelf.tree_at(2), Some((3, u16::MAX, 2)));
    assert_eq!(rt; shelf.find(1), Some(3));
    Ok(())
}

#[test]
fn the_figure_of_a_cell_is_what_a_tally_reads(rt: HostRuntime) -> Result<(), Fail> {
    let mut slots = [Slot::blank(); 6];
    let mut shelf = Trial::new(cell(3)?, &mut slots);
    assert_eq!(rt; shelf.checked_figure_up_to(rt.alloc(), 0)?, 0);
    shelf.enter(20, change(3, 5))?;
    shelf.enter(10, change(3, -2))?;
    shelf.enter(15, change(4, 100))?;
    shelf.enter(10, change(3, 1_000_000))?;
    shelf.enter(30, change(3, 1_000_001))?;
    shelf.enter(12, order(7))?;
    assert_eq!(rt; shelf.checked_figure_up_to(rt.alloc(), 9)?, 0);
    assert_eq!(rt; shelf.checked_figure_up_to(rt.alloc(), 10)?, 999_998);
    assert_eq!(rt; shelf.checked_figure_up_to(rt.alloc(), 19)?, 999_998);
    assert_eq!(rt; shelf.checked_figure_up_to(rt.alloc(), 30)?, 1_000_003);
    Ok(())
}

#[test]
fn the_figure_of_waiting_jobs_is_what_a_queue_reads(rt: HostRuntime) -> Result<(), Fail> {
    let mut slots = [Slot::blank(); 5];
    let mut shelf = Trial::new(WaitingWatch, &mut slots);
    shelf.enter(3, draw())?;
    shelf.enter(1, draw())?;
    shelf.enter(2, order(7))?;
    shelf.enter(2, order(9))?;
    shelf.enter(4, order(5))?;
    assert_eq!(rt; shelf.checked_figure_up_to(rt.alloc(), 1)?, 0);
    assert_eq!(rt; shelf.checked_figure_up_to(rt.alloc(), 2)?, 2);
    assert_eq!(rt; shelf.checked_figure_up_to(rt.alloc(), 3)?, 1);
    assert_eq!(rt; shelf.checked_figure_up_to(rt.alloc(), 4)?, 2);
    shelf.void(2);
    assert_eq!(rt; shelf.checked_figure_up_to(rt.alloc(), 3)?, 0);
    assert_eq!(rt; shelf.checked_figure_up_to(rt.alloc(), 4)?, 1);
    Ok(())
}

#[test]
fn a_watch_of_the_first_of_a_pair_passes_by_what_the_second_takes(
    rt: HostRuntime,
) -> Result<(), Fail> {
    let mut slots = [Slot::blank(); 4];
    let mut shelf = Trial::new(First::<CellWatch, Queue>::new(cell(0)?), &mut slots);
    shelf.enter(2, change(0, 5))?;
    shelf.enter(1, order(3))?;
    shelf.enter(3, draw())?;
    shelf.enter(1, change(0, -7))?;
    assert_eq!(rt; shelf.checked_figure_up_to(rt.alloc(), 0)?, 0);
    assert_eq!(rt; shelf.checked_figure_up_to(rt.alloc(), 1)?, -7);
    assert_eq!(rt; shelf.checked_figure_up_to(rt.alloc(), 3)?, -2);
    Ok(())
}
