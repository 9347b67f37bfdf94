// The order of entries by the bytes of their dates. Bytes that are no date come before all others, so that a walk down a
// shelf of any content always has a way to go.
ghost use Rattle.std.specs.Prelude.{◌≡◌, Ok};
ghost use Rattle.shelf.specs.Dating.{ahead};

use dates::Date;

// The place of entry `number` of a date in book order. A number above that of every slot makes it the place behind all
// entries of the date.
#[derive(Clone, Copy, PartialEq, Eq, PartialOrd, Ord)]
pub(crate) struct Place<D> {
    pub(crate) date: D,
    pub(crate) number: u32,
}

impl<D: Date> Place<D> {
    // The place of the entry in slot `i`, which has this date.
    pub(crate) fn of(date: D, i: u16) -> Place<D>
        ensures { result ≡ record { date = date; number = i } }
    {
        Place {
            date,
            number: u32::from(i),
        }
    }

    // The place behind all entries of a date.
    pub(crate) fn behind(date: D) -> Place<D>
        ensures { result ≡ record { date = date; number = 65536 } }
    {
        Place {
            date,
            number: 65_536,
        }
    }

    // Whether entry `i`, whose date bytes give, stands in front of this place.
    pub(crate) fn has_ahead(&self, bytes: [u8; 4], i: u16) -> bool
        ensures { result ≡ ahead D.Date.model (D.Date.model.given bytes) i (Ok self.now.date) self.now.number }
    {
        D::from_bytes(bytes).map_or(true, |date| Place::of(date, i) < *self)
    }
}
