// The three figures that a slot keeps of the tree beneath it: levels, standing entries, joined summaries. They are read
// at a link, and made for a new top from those of its two sides.
ghost use Rattle.std.specs.Prelude.{◌≡◌, ◌+◌, ◌<◌, ◌≤◌, length};
ghost use Rattle.slots.specs.Slots.{slot, count_over};
ghost use Rattle.slots.specs.Chain.{Figured};

use crate::{Parts, Slot};
use avl::level_over;
use watches::{Summary, Watch};

// The slot that a link leads to, or the blank slot where it leads nowhere. (`unwrap_or_else` was tried, and the check does not cover it here.)
pub fn slot_at<S: Summary>(shelf: &[Slot<S>], link: u16) -> Slot<S>
    ensures { result ≡ slot S.Summary.model shelf.now link }
{
    match shelf.get(link as usize) {
        Some(slot) => *slot,
        None => Slot::blank(),
    }
}

// The levels of the tree that a link leads to. This and the next two read one field through a reference, and copy no slot.
pub fn level_at<S: Summary>(shelf: &[Slot<S>], link: u16) -> u16
    ensures { result ≡ (slot S.Summary.model shelf.now link).level }
{
    shelf.get(link as usize).map_or(0, |slot| slot.level)
}

// The standing entries of the tree that a link leads to.
pub fn count_at<S: Summary>(shelf: &[Slot<S>], link: u16) -> u16
    ensures { result ≡ (slot S.Summary.model shelf.now link).count }
{
    shelf.get(link as usize).map_or(0, |slot| slot.count)
}

// The joined summaries of the tree that a link leads to. (`map_or_else` was tried, and the check does not cover it here.)
pub fn joined_at<S: Summary>(shelf: &[Slot<S>], link: u16) -> S
    ensures { result ≡ (slot S.Summary.model shelf.now link).joined }
{
    match shelf.get(link as usize) {
        Some(slot) => slot.joined,
        None => S::unit(),
    }
}

// The standing entries of a tree whose sides have `left` and `right` of them. On a shelf of any content the sum may leave
// the range: then it stops at its end.
pub fn count_over(left: u16, standing: bool, right: u16) -> u16
    ensures { result ≡ count_over left standing right }
{
    left.saturating_add(u16::from(standing))
        .saturating_add(right)
}

// The summaries of a tree in book order: those of the left side, the top's own, those of the right side.
pub fn joined_over<S: Summary>(left: S, own: S, right: S) -> S
    ensures { S.Summary.model.weight left + S.Summary.model.weight own + S.Summary.model.weight right ≤ 4096 → result ≡ S.Summary.model.join (S.Summary.model.join left own) right }
{
    left.join(own).join(right)
}

// The three figures that `put` writes. A slot has them as fields of its own, since all its fields are plain ones that its owner sees.
#[derive(Clone, Copy)]
pub(crate) struct Figures<S> {
    pub(crate) level: u16,
    pub(crate) count: u16,
    pub(crate) joined: S,
}

// The figures of the tree that a link leads to, as the three functions above read them one by one.
fn figures_at<S: Summary>(shelf: &[Slot<S>], link: u16) -> Figures<S>
    ensures level { result.level ≡ (slot S.Summary.model shelf.now link).level }
    ensures count { result.count ≡ (slot S.Summary.model shelf.now link).count }
    ensures joined { result.joined ≡ (slot S.Summary.model shelf.now link).joined }
{
    match shelf.get(link as usize) {
        Some(slot) => Figures {
            level: slot.level,
            count: slot.count,
            joined: slot.joined,
        },
        None => Figures {
            level: 0,
            count: 0,
            joined: S::unit(),
        },
    }
}

// The figures of the tree that is made of these parts.
pub(crate) fn figures_over<W: Watch>(
    shelf: &[Slot<W::Summary>],
    parts: Parts,
    watch: &W,
) -> Figures<W::Summary>
    requires { parts.top < length shelf.now }
    ensures { Figured W.Summary.Summary.model (W.Watch.summed watch.now) shelf.now parts.left parts.top parts.right result.level result.count result.joined }
{
    let top = &shelf[parts.top as usize];
    let left = figures_at(shelf, parts.left);
    let right = figures_at(shelf, parts.right);
    Figures {
        level: level_over(left.level, right.level),
        count: count_over(left.count, top.standing, right.count),
        joined: joined_over(left.joined, top.contribution(watch), right.joined),
    }
}
