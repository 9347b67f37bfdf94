// What is refused, and what the calls that write leave as it is.
use crate::entries::{cell, change, day};
use crate::trial::Trial;
use shelf::add;
use slots::Slot;
use std::test::Fail;
use watches::Sum;

#[test]
fn the_1_025th_entry_is_refused_though_there_is_a_slot(rt: HostRuntime) -> Result<(), Fail> {
    let mut slots = [Slot::blank(); 1_025];
    let mut shelf = Trial::new(cell(0)?, &mut slots);
    shelf.enter_days(&[1; 1_024])?;
    assert_eq!(rt; shelf.size(), Some((11, 1_024)));
    let before = shelf.slots.to_vec(rt.alloc())?;
    assert_eq!(rt; shelf.add(1, change(0, 1)), None);
    assert!(rt; &*shelf.slots == before.as_slice());
    Ok(())
}

#[test]
fn an_entry_past_the_shelf_is_refused(rt: HostRuntime) -> Result<(), Fail> {
    let watch = cell(0)?;
    let mut slots = [Slot::blank(); 3];
    let mut shelf = Trial::new(watch, &mut slots);
    shelf.enter_days(&[1, 2, 3])?;
    let before = shelf.slots.to_vec(rt.alloc())?;
    assert_eq!(rt; shelf.add(4, change(0, 1)), None);
    let root = shelf.root;
    assert_eq!(rt;
        add(shelf.slots, root, u16::MAX, &day(4), change(0, 1), &watch),
        None
    );
    assert!(rt; &*shelf.slots == before.as_slice());
    Ok(())
}

#[test]
fn a_number_past_the_shelf_is_neither_voided_nor_noted(rt: HostRuntime) -> Result<(), Fail> {
    let mut slots = [Slot::blank(); 3];
    let mut shelf = Trial::new(cell(0)?, &mut slots);
    shelf.enter_days(&[1, 2, 3])?;
    let before = shelf.slots.to_vec(rt.alloc())?;
    shelf.void(3);
    shelf.void(u16::MAX);
    shelf.set_note(3, Some(7));
    shelf.set_note(u16::MAX, Some(7));
    assert!(rt; &*shelf.slots == before.as_slice());
    Ok(())
}

#[test]
fn voiding_again_changes_nothing_more(rt: HostRuntime) -> Result<(), Fail> {
    let mut slots = [Slot::blank(); 3];
    let mut shelf = Trial::new(cell(0)?, &mut slots);
    shelf.enter_days(&[3, 1, 2])?;
    shelf.void(1);
    let before = shelf.slots.to_vec(rt.alloc())?;
    shelf.void(1);
    assert!(rt; &*shelf.slots == before.as_slice());
    assert_eq!(rt; shelf.size().map(|(_, count)| count), Some(2));
    Ok(())
}

#[test]
fn a_note_changes_nothing_else(rt: HostRuntime) -> Result<(), Fail> {
    let mut slots = [Slot::blank(); 3];
    let mut shelf = Trial::new(cell(0)?, &mut slots);
    shelf.enter_days(&[3, 1, 2])?;
    let mut noted = shelf.slots.to_vec(rt.alloc())?;
    noted.get_mut(1).ok_or("no slot")?.note = Some(7);
    shelf.set_note(1, Some(7));
    assert!(rt; &*shelf.slots == noted.as_slice());
    noted.get_mut(1).ok_or("no slot")?.note = None;
    shelf.set_note(1, None);
    assert!(rt; &*shelf.slots == noted.as_slice());
    Ok(())
}

#[test]
fn a_slot_without_an_entry_keeps_its_content(rt: HostRuntime) -> Result<(), Fail> {
    let content = Slot {
        date: [1, 2, 3, 4],
        operation: change(0, 6),
        standing: true,
        note: Some(7),
        left: 0,
        right: 1,
        level: 8,
        count: 9,
        joined: Sum { total: 10 },
    };
    let mut slots = [content; 4];
    let mut shelf = Trial::new(cell(0)?, &mut slots);
    shelf.enter_days(&[1, 3, 2])?;
    shelf.void(0);
    assert_eq!(rt; shelf.size(), Some((2, 2)));
    assert!(rt; shelf.slots.get(3) == Some(&content));
    Ok(())
}
