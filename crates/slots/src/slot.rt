// A slot holds one entry of the book, with its place in the tree of entries. A shelf is a lent slice of slots: entry n lies
// in slot n - 1 for good.
ghost use Rattle.std.specs.Prelude.{◌≡◌};
ghost use Rattle.slots.specs.Slots.{blank, entry, parts, contribution};

use machines::{Note, Operation};
use watches::{Summary, Watch};

// Whoever lends the shelf may write to it, so a slot promises nothing by itself: links, level, count and joined summary
// mean something only where the whole shelf is sound.
#[derive(Clone, Copy, PartialEq, Eq)]
pub struct Slot<S> {
    // the form of four bytes of the entry's date
    pub date: [u8; 4],
    pub operation: Operation,
    // an entry stands until it is voided
    pub standing: bool,
    // what the last step of a machine with this operation gave
    pub note: Note,
    // A link is the number of a slot. One that is not below the number of slots leads nowhere. Links are numbers and no
    // pointers, since the slots are lent and no call takes memory, and no `Option`, since a lent shelf may hold any number.
    // A link is made an index by `as usize`, which loses nothing; `usize::from` would put a call between the two.
    pub left: u16,
    pub right: u16,
    // the levels of the tree that this slot is the top of
    pub level: u16,
    // how many of that tree's entries stand
    pub count: u16,
    // the summaries of those, joined in book order
    pub joined: S,
}

impl<S: Summary> Slot<S> {
    // A slot that has no entry yet.
    pub fn blank() -> Slot<S>
        ensures { result ≡ blank S.Summary.model }
    {
        Slot {
            date: [0; 4],
            operation: Operation {
                code: 0,
                place: 0,
                amount: 0,
            },
            standing: false,
            note: None,
            left: 0,
            right: 0,
            level: 0,
            count: 0,
            joined: S::unit(),
        }
    }

    // What the entry adds to the summaries: a voided one adds nothing.
    pub fn contribution<W: Watch<Summary = S>>(&self, watch: &W) -> S
        ensures { result ≡ contribution S.Summary.model (W.Watch.summed watch.now) (entry self.now) }
    {
        if self.standing {
            watch.summary_of(&self.operation)
        } else {
            S::unit()
        }
    }

    // The parts of the tree that this slot is the top of, where `top` is its number.
    pub fn parts(&self, top: u16) -> Parts
        ensures { result ≡ parts self.now top }
    {
        Parts {
            left: self.left,
            top,
            right: self.right,
        }
    }
}

// What a tree is made of: the number of the slot at its top, and the links to its two sides.
#[derive(Clone, Copy, PartialEq, Eq)]
pub struct Parts {
    pub left: u16,
    pub top: u16,
    pub right: u16,
}
