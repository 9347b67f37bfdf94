// The counts of a tally: alone, first of a pair, and inset.
use crate::runs::{TallyAt64, Trial, change, count, question};
use house::HouseMachine;
use machines::Machine;
use primitives::{CHANGE, Tally};
use std::process::Abort;
use std::test::Fail;

// The cells of a kind of machine are at the places up to this one, and their amounts are -1,000,000 to 1,000,000.
fn assert_cells_end<M: Machine>(rt: &impl Abort, last: u16) {
    assert!(rt; M::knows(&change(last, 1_000_000)));
    assert!(rt; !M::knows(&change(last, 1_000_001)));
    assert!(rt; !M::knows(&change(last, i32::MAX)));
    assert!(rt; M::knows(&change(last, -1_000_000)));
    assert!(rt; !M::knows(&change(last, -1_000_001)));
    assert!(rt; !M::knows(&change(last, i32::MIN)));
    assert!(rt; M::answers(&count(last)));
    assert!(rt; !M::answers(&question(CHANGE, last, 1)));
    assert!(rt; !M::answers(&question(CHANGE, last, -1)));
    assert!(rt; !M::knows(&change(last.wrapping_add(1), 1)));
    assert!(rt; !M::answers(&count(last.wrapping_add(1))));
}

// 2,000 changes by a million, up or down, reach the last count. One more by 1 is idle and leaves it, and so does its taking
// back; the taking back of the last change restores the count before.
fn assert_counts_end<M: Machine>(rt: &(impl Abort + AllocGlobal), place: u16) -> Result<(), Fail> {
    let mut machine = Trial::<M>::new(rt.alloc())?;
    assert!(rt; machine.moves(change(place, 1_000_000), 2000)?);
    assert_eq!(rt; machine.read(count(place)), Some(2_000_000_000));
    assert_eq!(rt; machine.step(change(place, 1))?, None);
    assert_eq!(rt; machine.read(count(place)), Some(2_000_000_000));
    machine.take_back()?;
    assert_eq!(rt; machine.read(count(place)), Some(2_000_000_000));
    machine.take_back()?;
    assert_eq!(rt; machine.read(count(place)), Some(1_999_000_000));
    assert!(rt; machine.moves(change(place, -1_000_000), 3999)?);
    assert_eq!(rt; machine.read(count(place)), Some(-2_000_000_000));
    assert_eq!(rt; machine.step(change(place, -1))?, None);
    assert_eq!(rt; machine.read(count(place)), Some(-2_000_000_000));
    machine.take_back()?;
    assert_eq!(rt; machine.read(count(place)), Some(-2_000_000_000));
    machine.take_back()?;
    assert_eq!(rt; machine.read(count(place)), Some(-1_999_000_000));
    Ok(())
}

#[test]
fn the_cells_of_a_tally_end_at_63_and_its_amounts_at_a_million(rt: HostRuntime) {
    assert_cells_end::<Tally>(&rt, 63);
}

#[test]
fn the_cells_of_a_pair_end_at_63_and_its_amounts_at_a_million(rt: HostRuntime) {
    assert_cells_end::<HouseMachine>(&rt, 63);
}

#[test]
fn the_cells_of_an_inset_end_at_127_and_its_amounts_at_a_million(rt: HostRuntime) {
    assert_cells_end::<TallyAt64>(&rt, 127);
}

#[test]
fn the_counts_of_a_tally_end_at_two_billion_either_way(rt: HostRuntime) -> Result<(), Fail> {
    assert_counts_end::<Tally>(&rt, 63)
}

#[test]
fn the_counts_of_a_pair_end_at_two_billion_either_way(rt: HostRuntime) -> Result<(), Fail> {
    assert_counts_end::<HouseMachine>(&rt, 63)
}

#[test]
fn the_counts_of_an_inset_end_at_two_billion_either_way(rt: HostRuntime) -> Result<(), Fail> {
    assert_counts_end::<TallyAt64>(&rt, 127)
}

#[test]
fn a_change_leaves_the_cells_beside_it(rt: HostRuntime) -> Result<(), Fail> {
    let mut tally = Trial::<Tally>::new(rt.alloc())?;
    assert_eq!(rt; tally.step(change(1, 5))?, Some(0));
    assert_eq!(rt; tally.read(count(0)), Some(0));
    assert_eq!(rt; tally.read(count(1)), Some(5));
    assert_eq!(rt; tally.read(count(2)), Some(0));
    Ok(())
}

#[test]
fn a_change_past_the_last_cell_is_idle(rt: HostRuntime) -> Result<(), Fail> {
    let mut tally = Trial::<Tally>::new(rt.alloc())?;
    assert_eq!(rt; tally.step(change(64, 5))?, None);
    assert_eq!(rt; tally.read(count(63)), Some(0));
    assert_eq!(rt; tally.read(count(64)), None);
    Ok(())
}
