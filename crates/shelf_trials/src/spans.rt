// Spans are joined in book order, and not as their entries arrive.
use crate::entries::{draw, order};
use crate::trial::Trial;
use machines::Operation;
use slots::Slot;
use std::test::Fail;
use watches::WaitingWatch;

// An entry by its day and its operation.
type Entry = (i32, Operation);

// The draws unmet and the jobs left of two entries up to day 2.
fn span_of(first: Entry, second: Entry) -> Result<(u32, u32), Fail> {
    let mut slots = [Slot::blank(); 2];
    let mut shelf = Trial::new(WaitingWatch, &mut slots);
    for (number, operation) in [first, second] {
        shelf.enter(number, operation)?;
    }
    let span = shelf.joined_up_to(2);
    Ok((span.unmet, span.left))
}

#[test]
fn an_order_meets_a_draw_dated_later_and_none_dated_earlier(rt: HostRuntime) -> Result<(), Fail> {
    assert_eq!(rt; span_of((1, order(0)), (2, draw()))?, (0, 0));
    assert_eq!(rt; span_of((2, draw()), (1, order(0)))?, (0, 0));
    assert_eq!(rt; span_of((1, draw()), (2, order(0)))?, (1, 1));
    assert_eq!(rt; span_of((2, order(0)), (1, draw()))?, (1, 1));
    Ok(())
}
