// The jobs of a queue: alone, and in a pair.
use crate::runs::{Trial, draw, job, operation, order, question, waiting};
use house::HouseMachine;
use machines::Machine;
use primitives::{DRAW, ORDER, Queue};
use std::process::Abort;
use std::test::Fail;

// The jobs are 0 to 999,999 and the indexes 0 to 1,023, at place 0 alone, and a draw has amount 0.
fn assert_jobs_and_indexes_end<M: Machine>(rt: &impl Abort) {
    assert!(rt; M::knows(&order(0)));
    assert!(rt; !M::knows(&order(-1)));
    assert!(rt; M::knows(&order(999_999)));
    assert!(rt; !M::knows(&order(1_000_000)));
    assert!(rt; !M::knows(&operation(ORDER, 1, 0)));
    assert!(rt; M::knows(&draw()));
    assert!(rt; !M::knows(&operation(DRAW, 0, 1)));
    assert!(rt; !M::knows(&operation(DRAW, 1, 0)));
    assert!(rt; M::answers(&waiting()));
    assert!(rt; !M::answers(&question(ORDER, 0, 1)));
    assert!(rt; M::answers(&job(0)));
    assert!(rt; !M::answers(&job(-1)));
    assert!(rt; M::answers(&job(1023)));
    assert!(rt; !M::answers(&job(1024)));
    assert!(rt; !M::answers(&question(DRAW, 1, 0)));
}

// 1,024 jobs wait. One more order is idle, and so is its taking back; the taking back of the last order makes room again.
fn assert_room_ends<M: Machine>(rt: &(impl Abort + AllocGlobal)) -> Result<(), Fail> {
    let mut machine = Trial::<M>::new(rt.alloc())?;
    assert!(rt; machine.moves(order(7), 1023)?);
    assert_eq!(rt; machine.step(order(8))?, Some(0));
    assert_eq!(rt; machine.read(waiting()), Some(1024));
    assert_eq!(rt; machine.step(order(9))?, None);
    assert_eq!(rt; machine.read(waiting()), Some(1024));
    assert_eq!(rt; machine.read(job(1023)), Some(8));
    machine.take_back()?;
    assert_eq!(rt; machine.read(waiting()), Some(1024));
    machine.take_back()?;
    assert_eq!(rt; machine.read(waiting()), Some(1023));
    assert_eq!(rt; machine.read(job(1022)), Some(7));
    assert_eq!(rt; machine.read(job(1023)), None);
    assert_eq!(rt; machine.step(order(9))?, Some(0));
    assert_eq!(rt; machine.read(job(1023)), Some(9));
    Ok(())
}

// A draw notes the job at the front, and its taking back puts the job there again.
fn assert_draw_takes_the_front<M: Machine>(rt: &(impl Abort + AllocGlobal)) -> Result<(), Fail> {
    let mut machine = Trial::<M>::new(rt.alloc())?;
    assert_eq!(rt; machine.step(order(11))?, Some(0));
    assert_eq!(rt; machine.step(order(999_999))?, Some(0));
    assert_eq!(rt; machine.step(draw())?, Some(11));
    assert_eq!(rt; machine.read(waiting()), Some(1));
    assert_eq!(rt; machine.read(job(0)), Some(999_999));
    machine.take_back()?;
    assert_eq!(rt; machine.read(waiting()), Some(2));
    assert_eq!(rt; machine.read(job(0)), Some(11));
    assert_eq!(rt; machine.read(job(1)), Some(999_999));
    Ok(())
}

#[test]
fn the_jobs_of_a_queue_are_0_to_999_999_and_its_indexes_0_to_1023(rt: HostRuntime) {
    assert_jobs_and_indexes_end::<Queue>(&rt);
}

#[test]
fn the_jobs_of_a_pair_are_0_to_999_999_and_its_indexes_0_to_1023(rt: HostRuntime) {
    assert_jobs_and_indexes_end::<HouseMachine>(&rt);
}

#[test]
fn the_room_of_a_queue_ends_with_1024_jobs(rt: HostRuntime) -> Result<(), Fail> {
    assert_room_ends::<Queue>(&rt)
}

#[test]
fn the_room_of_a_pair_ends_with_1024_jobs(rt: HostRuntime) -> Result<(), Fail> {
    assert_room_ends::<HouseMachine>(&rt)
}

#[test]
fn a_draw_of_a_queue_takes_the_front(rt: HostRuntime) -> Result<(), Fail> {
    assert_draw_takes_the_front::<Queue>(&rt)
}

#[test]
fn a_draw_of_a_pair_takes_the_front(rt: HostRuntime) -> Result<(), Fail> {
    assert_draw_takes_the_front::<HouseMachine>(&rt)
}

#[test]
fn a_draw_on_an_empty_queue_is_idle(rt: HostRuntime) -> Result<(), Fail> {
    let mut queue = Trial::<Queue>::new(rt.alloc())?;
    assert_eq!(rt; queue.step(draw())?, None);
    assert_eq!(rt; queue.read(waiting()), Some(0));
    queue.take_back()?;
    assert_eq!(rt; queue.read(waiting()), Some(0));
    Ok(())
}

#[test]
fn a_draw_of_a_full_queue_is_taken_back(rt: HostRuntime) -> Result<(), Fail> {
    let mut queue = Trial::<Queue>::new(rt.alloc())?;
    assert_eq!(rt; queue.step(order(3))?, Some(0));
    assert!(rt; queue.moves(order(4), 1023)?);
    assert_eq!(rt; queue.step(draw())?, Some(3));
    assert_eq!(rt; queue.read(waiting()), Some(1023));
    queue.take_back()?;
    assert_eq!(rt; queue.read(waiting()), Some(1024));
    assert_eq!(rt; queue.read(job(0)), Some(3));
    assert_eq!(rt; queue.read(job(1023)), Some(4));
    Ok(())
}

#[test]
fn no_job_is_read_past_the_last(rt: HostRuntime) -> Result<(), Fail> {
    let mut queue = Trial::<Queue>::new(rt.alloc())?;
    assert_eq!(rt; queue.read(job(0)), None);
    assert_eq!(rt; queue.step(order(5))?, Some(0));
    assert_eq!(rt; queue.read(job(0)), Some(5));
    assert_eq!(rt; queue.read(job(1)), None);
    assert_eq!(rt; queue.read(job(1023)), None);
    Ok(())
}
