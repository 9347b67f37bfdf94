// What a counter counts.
use crate::runs::{Trial, change, count, draw, order};
use house::HouseMachine;
use primitives::{Queue, Tally};
use std::test::Fail;

#[test]
fn a_new_counter_has_counted_nothing(rt: HostRuntime) -> Result<(), Fail> {
    let mut tally = Trial::<Tally>::new(rt.alloc())?;
    assert_eq!(rt; tally.steps(), (0, 0));
    assert_eq!(rt; tally.read(count(0)), Some(0));
    assert_eq!(rt; tally.steps(), (0, 0));
    Ok(())
}

#[test]
fn steps_back_and_forward_are_counted_apart(rt: HostRuntime) -> Result<(), Fail> {
    let mut tally = Trial::<Tally>::new(rt.alloc())?;
    assert_eq!(rt; tally.step(change(0, 5))?, Some(0));
    assert_eq!(rt; tally.step(change(0, 5))?, Some(0));
    assert_eq!(rt; tally.steps(), (0, 2));
    tally.take_back()?;
    assert_eq!(rt; tally.steps(), (1, 2));
    assert_eq!(rt; tally.read(count(0)), Some(5));
    Ok(())
}

#[test]
fn an_idle_step_and_its_taking_back_are_counted(rt: HostRuntime) -> Result<(), Fail> {
    let mut queue = Trial::<Queue>::new(rt.alloc())?;
    assert_eq!(rt; queue.step(draw())?, None);
    assert_eq!(rt; queue.steps(), (0, 1));
    queue.take_back()?;
    assert_eq!(rt; queue.steps(), (1, 1));
    Ok(())
}

#[test]
fn begin_counts_from_0_and_leaves_the_machine(rt: HostRuntime) -> Result<(), Fail> {
    let mut tally = Trial::<Tally>::new(rt.alloc())?;
    assert_eq!(rt; tally.step(change(0, 5))?, Some(0));
    tally.take_back()?;
    assert_eq!(rt; tally.step(change(0, 6))?, Some(0));
    assert_eq!(rt; tally.steps(), (1, 2));
    tally.begin();
    assert_eq!(rt; tally.steps(), (0, 0));
    assert_eq!(rt; tally.read(count(0)), Some(6));
    tally.take_back()?;
    assert_eq!(rt; tally.steps(), (1, 0));
    assert_eq!(rt; tally.read(count(0)), Some(0));
    Ok(())
}

#[test]
fn every_step_of_a_long_run_is_counted(rt: HostRuntime) -> Result<(), Fail> {
    let mut house = Trial::<HouseMachine>::new(rt.alloc())?;
    assert!(rt; house.moves(order(0), 1024)?);
    assert_eq!(rt; house.step(order(0))?, None);
    assert!(rt; house.moves(change(0, 1_000_000), 2000)?);
    assert_eq!(rt; house.step(change(0, 1))?, None);
    assert_eq!(rt; house.steps(), (0, 3026));
    Ok(())
}
