// The number, the giver and the text of what dates and machines refuse.
use crate::runs::{change, count};
use dates::NoSuchDate;
use machines::{MachineFault, check_operation, check_question};
use primitives::Tally;
use std::process::Abort;
use std::test::Fail;

// Refused by the machine, with this number and text.
fn assert_refused(
    rt: &(impl Abort + AllocGlobal),
    found: Result<(), MachineFault>,
    number: u16,
    text: &str,
) -> Result<(), Fail> {
    let fault = found.err().ok_or("nothing is refused")?;
    assert_eq!(rt; fault.number(), number);
    assert_eq!(rt; fault.giver(), "machine");
    assert_eq!(rt; fault.to_string(rt.alloc())?.as_str(), text);
    Ok(())
}

#[test]
fn no_such_date_is_refusal_1_of_the_date(rt: HostRuntime) -> Result<(), Fail> {
    assert_eq!(rt; NoSuchDate.number(), 1);
    assert_eq!(rt; NoSuchDate.giver(), "date");
    assert_eq!(rt; NoSuchDate.to_string(rt.alloc())?.as_str(), "no such date");
    Ok(())
}

#[test]
fn an_unknown_operation_is_refusal_2_of_the_machine(rt: HostRuntime) -> Result<(), Fail> {
    assert!(rt; check_operation::<Tally>(&change(63, 0)).is_ok());
    assert_refused(
        &rt,
        check_operation::<Tally>(&change(64, 0)),
        2,
        "operation not known",
    )
}

#[test]
fn an_unanswered_question_is_refusal_6_of_the_machine(rt: HostRuntime) -> Result<(), Fail> {
    assert!(rt; check_question::<Tally>(&count(63)).is_ok());
    assert_refused(
        &rt,
        check_question::<Tally>(&count(64)),
        6,
        "question not answered",
    )
}
