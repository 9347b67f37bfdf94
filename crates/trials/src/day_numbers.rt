// The order and the bytes of day numbers.
use crate::date_laws::{assert_bytes, assert_order};
use dates::{Date, DayNumber};
use std::test::Fail;

#[test]
fn the_kind_is_1(rt: HostRuntime) {
    assert_eq!(rt; DayNumber::kind(), 1);
}

#[test]
fn the_low_byte_comes_first(rt: HostRuntime) -> Result<(), Fail> {
    for (number, bytes) in [
        (1, [1, 0, 0, 0]),
        (-1, [0xFF; 4]),
        (i32::MIN, [0, 0, 0, 0x80]),
        (i32::MAX, [0xFF, 0xFF, 0xFF, 0x7F]),
    ] {
        let day = DayNumber::new(number);
        assert_eq!(rt; day.number(), number);
        assert_bytes(&rt, day, bytes)?;
    }
    Ok(())
}

#[test]
fn days_are_in_the_order_of_their_numbers(rt: HostRuntime) {
    // By a closure, since no proof was found for a call of `DayNumber::new` that is passed by its name.
    assert_order(
        &rt,
        &[i32::MIN, -2, -1, 0, 1, i32::MAX].map(|number| DayNumber::new(number)),
    );
}
