// What the tests ask of every kind of date: its order and its bytes.
use dates::Date;
use std::process::Abort;
use std::test::Fail;

// Each date compares with each as their indexes do.
pub(crate) fn assert_order<D: Date>(rt: &impl Abort, dates: &[D]) {
    for (i, left) in dates.iter().enumerate() {
        for (j, right) in dates.iter().enumerate() {
            assert_eq!(rt; left.cmp(right), i.cmp(&j), "{i} and {j}");
        }
    }
}

// The date has these bytes, and they are of this date.
pub(crate) fn assert_bytes<D: Date>(rt: &impl Abort, date: D, bytes: [u8; 4]) -> Result<(), Fail> {
    assert_eq!(rt; date.to_bytes(), bytes);
    let again = D::from_bytes(bytes).map_err(Fail::new)?;
    assert!(rt; again == date);
    Ok(())
}
