// The statuses of a board: alone, and last of a pair.
use crate::runs::{Trial, question, set, status};
use house::HouseMachine;
use machines::Machine;
use primitives::{Board, SET};
use std::process::Abort;
use std::test::Fail;

fn assert_paths_and_statuses_end<M: Machine>(rt: &impl Abort) {
    assert!(rt; M::knows(&set(63, 0)));
    assert!(rt; !M::knows(&set(63, -1)));
    assert!(rt; M::knows(&set(63, 7)));
    assert!(rt; !M::knows(&set(63, 8)));
    assert!(rt; !M::knows(&set(64, 7)));
    assert!(rt; M::answers(&status(63)));
    assert!(rt; !M::answers(&question(SET, 63, 1)));
    assert!(rt; !M::answers(&status(64)));
}

// A set notes the old status, and its taking back restores it.
fn assert_set_notes_the_old<M: Machine>(rt: &(impl Abort + AllocGlobal)) -> Result<(), Fail> {
    let mut machine = Trial::<M>::new(rt.alloc())?;
    assert_eq!(rt; machine.step(set(63, 7))?, Some(0));
    assert_eq!(rt; machine.step(set(63, 2))?, Some(7));
    assert_eq!(rt; machine.read(status(63)), Some(2));
    machine.take_back()?;
    assert_eq!(rt; machine.read(status(63)), Some(7));
    machine.take_back()?;
    assert_eq!(rt; machine.read(status(63)), Some(0));
    Ok(())
}

#[test]
fn the_paths_of_a_board_end_at_63_and_its_statuses_at_7(rt: HostRuntime) {
    assert_paths_and_statuses_end::<Board>(&rt);
}

#[test]
fn the_paths_of_a_pair_end_at_63_and_its_statuses_at_7(rt: HostRuntime) {
    assert_paths_and_statuses_end::<HouseMachine>(&rt);
}

#[test]
fn a_set_of_a_board_notes_the_old_status(rt: HostRuntime) -> Result<(), Fail> {
    assert_set_notes_the_old::<Board>(&rt)
}

#[test]
fn a_set_of_a_pair_notes_the_old_status(rt: HostRuntime) -> Result<(), Fail> {
    assert_set_notes_the_old::<HouseMachine>(&rt)
}

#[test]
fn a_set_leaves_the_paths_beside_it(rt: HostRuntime) -> Result<(), Fail> {
    let mut board = Trial::<Board>::new(rt.alloc())?;
    assert_eq!(rt; board.step(set(1, 5))?, Some(0));
    assert_eq!(rt; board.read(status(0)), Some(0));
    assert_eq!(rt; board.read(status(1)), Some(5));
    assert_eq!(rt; board.read(status(2)), Some(0));
    Ok(())
}

#[test]
fn a_set_to_status_8_is_idle(rt: HostRuntime) -> Result<(), Fail> {
    let mut board = Trial::<Board>::new(rt.alloc())?;
    assert_eq!(rt; board.step(set(3, 7))?, Some(0));
    assert_eq!(rt; board.step(set(3, 8))?, None);
    assert_eq!(rt; board.read(status(3)), Some(7));
    board.take_back()?;
    assert_eq!(rt; board.read(status(3)), Some(7));
    Ok(())
}
