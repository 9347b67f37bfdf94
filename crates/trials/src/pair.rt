// Which machine of a pair takes an operation and answers a question.
use crate::runs::{Trial, change, count, operation, order, question, set, status, waiting};
use house::HouseMachine;
use machines::{Inset, Machine, Pair};
use primitives::{Board, Tally};
use std::test::Fail;

type TallyAt32 = Inset<Tally, 32>;

#[test]
fn the_first_takes_what_both_know(rt: HostRuntime) -> Result<(), Fail> {
    let mut tallies = Trial::<Pair<Tally, TallyAt32>>::new(rt.alloc())?;
    assert_eq!(rt; tallies.step(change(63, 5))?, Some(0));
    assert_eq!(rt; tallies.read(count(63)), Some(5));
    tallies.take_back()?;
    assert_eq!(rt; tallies.read(count(63)), Some(0));
    Ok(())
}

#[test]
fn the_second_takes_what_the_first_does_not_know(rt: HostRuntime) -> Result<(), Fail> {
    let mut tallies = Trial::<Pair<Tally, TallyAt32>>::new(rt.alloc())?;
    assert_eq!(rt; tallies.step(change(64, 5))?, Some(0));
    assert_eq!(rt; tallies.read(count(64)), Some(5));
    assert_eq!(rt; tallies.read(count(32)), Some(0));
    tallies.take_back()?;
    assert_eq!(rt; tallies.read(count(64)), Some(0));
    Ok(())
}

#[test]
fn a_code_unknown_to_both_is_unknown_to_the_pair(rt: HostRuntime) {
    assert!(rt; !HouseMachine::knows(&operation(0, 0, 0)));
    assert!(rt; !HouseMachine::knows(&operation(5, 0, 0)));
    assert!(rt; !HouseMachine::knows(&operation(u16::MAX, 0, 0)));
    assert!(rt; !HouseMachine::answers(&question(0, 0, 0)));
    assert!(rt; !HouseMachine::answers(&question(5, 0, 0)));
    assert!(rt; !HouseMachine::answers(&question(u16::MAX, 0, 0)));
}

#[test]
fn a_step_unknown_to_both_is_idle(rt: HostRuntime) -> Result<(), Fail> {
    let mut pair = Trial::<Pair<Tally, Board>>::new(rt.alloc())?;
    assert_eq!(rt; pair.step(operation(5, 0, 1))?, None);
    assert_eq!(rt; pair.read(count(0)), Some(0));
    assert_eq!(rt; pair.read(status(0)), Some(0));
    Ok(())
}

#[test]
fn a_question_that_the_first_does_not_answer_goes_to_the_second(
    rt: HostRuntime,
) -> Result<(), Fail> {
    let mut house = Trial::<HouseMachine>::new(rt.alloc())?;
    assert_eq!(rt; house.step(change(0, 3))?, Some(0));
    assert_eq!(rt; house.step(order(9))?, Some(0));
    assert_eq!(rt; house.step(set(0, 4))?, Some(0));
    assert_eq!(rt; house.read(count(0)), Some(3));
    assert_eq!(rt; house.read(waiting()), Some(1));
    assert_eq!(rt; house.read(status(0)), Some(4));
    assert_eq!(rt; house.read(question(5, 0, 0)), None);
    Ok(())
}
