// The calls that write to a shelf. Entry n lies in slot n - 1, so the number `n` of a slot is the number of entries that
// came before it.
// (Slots, root, watch, link and depth are parameters of their own: the head of the crate says why.)
ghost use Rattle.std.specs.Prelude.{◌≡◌, ℕ, ◌<◌, List, length};
ghost use Rattle.machines.specs.declared.operation.Operation.{Operation};
ghost use Rattle.slots.specs.declared.slot.Slot.{Slot};
ghost use Rattle.slots.specs.Slots.{Kept};
ghost use Rattle.shelf.specs.Changes.{newly, noted, Adds, Voids};
ghost use Rattle.shelf.specs.Dating.{dated_past};
ghost use Rattle.shelf.specs.Sound.{Sound};
ghost use Rattle.shelf.specs.Ways.{Inserts, Refreshes};

use crate::dating::Place;
use avl::most_levels;
use dates::Date;
use machines::{Note, Operation};
use slots::tree::{put, rebalance};
use slots::{Parts, Slot};
use watches::{Summary, Watch};

// The most entries of a book.
const MOST_ENTRIES: u16 = 1_024;

// The root link of a shelf that has no entries: a number that no slot has. It is no Option, as links are none: a lent shelf may hold any number.
pub fn no_root<D: Date, S: Summary>() -> u16
    ensures sound { (summed : Operation → S) (slots : List (Slot S)) → length slots < 65536 → Sound D.Date.model S.Summary.model summed slots result 0 }
{
    u16::MAX
}

// Takes slot `n` of this date into the tree of at most `depth` levels at a link: it goes in front of the first slot that is
// dated later, so behind all of its own date. Answers the new root.
fn insert<D: Date, W: Watch>(
    shelf: &mut [Slot<W::Summary>],
    link: u16,
    n: u16,
    date: &D,
    watch: &W,
    depth: u8,
) -> u16
    ensures kept { Kept W.Summary.Summary.model shelf.old shelf.new }
    ensures inserts { Inserts W.Summary.Summary.model (W.Watch.summed watch.now) (dated_past D.Date.model date.now) shelf.old shelf.new link n depth result }
{
    let Some(node) = shelf.get(link as usize) else {
        let alone = Parts {
            left: link,
            top: n,
            right: link,
        };
        return put(shelf, alone, watch);
    };
    if depth == 0 {
        return link;
    }
    let parts = node.parts(link);
    if Place::behind(*date).has_ahead(node.date, link) {
        let right = insert(shelf, parts.right, n, date, watch, depth - 1);
        rebalance(shelf, Parts { right, ..parts }, watch)
    } else {
        let left = insert(shelf, parts.left, n, date, watch, depth - 1);
        rebalance(shelf, Parts { left, ..parts }, watch)
    }
}

// Writes the next entry into slot `n` as standing, and takes it into the tree of the `n` entries before it. Answers the new
// root, or none where there is no slot left for it.
pub fn add<D: Date, W: Watch>(
    shelf: &mut [Slot<W::Summary>],
    root: u16,
    n: u16,
    date: &D,
    operation: Operation,
    watch: &W,
) -> Option<u16>
    ensures adds { Adds W.Summary.Summary.model D.Date.model (W.Watch.summed watch.now) shelf.old shelf.new root n (newly (D.Date.model.bytes date.now) operation) result }
{
    if n >= MOST_ENTRIES || n as usize >= shelf.len() {
        return None;
    }
    shelf[n as usize] = Slot {
        date: date.to_bytes(),
        operation,
        standing: true,
        ..Slot::blank()
    };
    Some(insert(shelf, root, n, date, watch, most_levels()))
}

// Makes anew the figures of all slots on the way down to the entry at a place, which has changed.
fn refresh<D: Date, W: Watch>(
    shelf: &mut [Slot<W::Summary>],
    link: u16,
    place: Place<D>,
    watch: &W,
    depth: u8,
)
    ensures kept { Kept W.Summary.Summary.model shelf.old shelf.new }
    ensures refreshes { Refreshes W.Summary.Summary.model (W.Watch.summed watch.now) D.Date.model place.date shelf.old shelf.new link place.number depth }
{
    let Some(node) = shelf.get(link as usize) else {
        return;
    };
    if depth == 0 {
        return;
    }
    let parts = node.parts(link);
    if u32::from(link) != place.number {
        let side = if place.has_ahead(node.date, link) {
            parts.right
        } else {
            parts.left
        };
        refresh(shelf, side, place, watch, depth - 1);
    }
    put(shelf, parts, watch);
}

// Marks the entry in slot `i` as voided, and takes it out of the figures of all slots above it.
pub fn void<D: Date, W: Watch>(shelf: &mut [Slot<W::Summary>], root: u16, i: u16, watch: &W)
    ensures voids { Voids W.Summary.Summary.model D.Date.model (W.Watch.summed watch.now) shelf.old shelf.new root i }
{
    let Some(node) = shelf.get(i as usize) else {
        return;
    };
    let bytes = node.date;
    shelf[i as usize] = Slot {
        standing: false,
        ..*node
    };
    let Ok(date) = D::from_bytes(bytes) else {
        return;
    };
    refresh(shelf, root, Place::of(date, i), watch, most_levels());
}

// Keeps what the last step with the operation in slot `i` gave.
pub fn set_note<D: Date, S: Summary>(shelf: &mut [Slot<S>], i: u16, note: Note)
    ensures noted { shelf.new ≡ noted S.Summary.model shelf.old i note }
    ensures sound { (summed : Operation → S) (root n : ℕ) → Sound D.Date.model S.Summary.model summed shelf.old root n → Sound D.Date.model S.Summary.model summed shelf.new root n }
{
    let Some(node) = shelf.get(i as usize) else {
        return;
    };
    shelf[i as usize] = Slot { note, ..*node };
}
