// The calls that read a shelf: each goes down one way, and takes the figures of the sides that it passes by.
// (Slots, root, watch, link and depth are parameters of their own: the head of the crate says why.)
ghost use Rattle.std.specs.Prelude.{◌≡◌, ◌≤◌, length};
ghost use Rattle.shelf.specs.Reading.{CountsUpTo, CountsBefore, JoinsUpTo, ReadsUpTo, Finds};
ghost use Rattle.shelf.specs.Ways.{Counts, Joins, Selects};

use crate::dating::Place;
use avl::most_levels;
use dates::Date;
use slots::Slot;
use slots::figures::{count_at, count_over, joined_at, joined_over};
use watches::{Summary, Watch};

// The standing entries in front of a place.
fn count_ahead<D: Date, S: Summary>(shelf: &[Slot<S>], link: u16, place: Place<D>, depth: u8) -> u16
    ensures counts { Counts S.Summary.model D.Date.model place.date place.number shelf.now link depth result }
{
    let Some(node) = shelf.get(link as usize) else {
        return 0;
    };
    if depth == 0 {
        return 0;
    }
    if place.has_ahead(node.date, link) {
        let rest = count_ahead(shelf, node.right, place, depth - 1);
        count_over(count_at(shelf, node.left), node.standing, rest)
    } else {
        count_ahead(shelf, node.left, place, depth - 1)
    }
}

// How many standing entries are dated no later than a date.
pub fn count_up_to<D: Date, S: Summary>(shelf: &[Slot<S>], root: u16, date: &D) -> u16
    ensures counted { CountsUpTo D.Date.model S.Summary.model shelf.now root date.now result }
{
    count_ahead(shelf, root, Place::behind(*date), most_levels())
}

// How many standing entries are in front of the entry in slot `i` in book order; 0 where there is no such slot, so
// that a caller has nothing to take apart.
pub fn count_before<D: Date, S: Summary>(shelf: &[Slot<S>], root: u16, i: u16) -> u16
    ensures refused { length shelf.now ≤ i → result ≡ 0 }
    ensures counted { CountsBefore D.Date.model S.Summary.model shelf.now root i result }
{
    let Some(node) = shelf.get(i as usize) else {
        return 0;
    };
    let Ok(date) = D::from_bytes(node.date) else {
        return 0;
    };
    count_ahead(shelf, root, Place::of(date, i), most_levels())
}

// The joined summaries of the entries in front of a place. It is the walk of `count_ahead` over another figure. One walk
// that takes a closure, which makes a figure of a slot and of what follows it, was written out: it is as long as both, since
// each figure needs its closure and the walk a contract in the closure's terms.
fn joined_ahead<D: Date, W: Watch>(
    shelf: &[Slot<W::Summary>],
    link: u16,
    place: Place<D>,
    watch: &W,
    depth: u8,
) -> W::Summary
    ensures joins { Joins W.Summary.Summary.model (W.Watch.summed watch.now) D.Date.model place.date place.number shelf.now link depth result }
{
    let Some(node) = shelf.get(link as usize) else {
        return W::Summary::unit();
    };
    if depth == 0 {
        return W::Summary::unit();
    }
    if place.has_ahead(node.date, link) {
        let rest = joined_ahead(shelf, node.right, place, watch, depth - 1);
        joined_over(joined_at(shelf, node.left), node.contribution(watch), rest)
    } else {
        joined_ahead(shelf, node.left, place, watch, depth - 1)
    }
}

// The summaries of the standing entries dated no later than a date, joined in book order.
pub fn joined_up_to<D: Date, W: Watch>(
    shelf: &[Slot<W::Summary>],
    root: u16,
    date: &D,
    watch: &W,
) -> W::Summary
    ensures joined { JoinsUpTo D.Date.model W.Summary.Summary.model shelf.now root (W.Watch.summed watch.now) date.now result }
{
    joined_ahead(shelf, root, Place::behind(*date), watch, most_levels())
}

// What the watched machine would read after the standing entries dated no later than a date, found without a step.
pub fn figure_up_to<D: Date, W: Watch>(
    shelf: &[Slot<W::Summary>],
    root: u16,
    date: &D,
    watch: &W,
) -> i64
    ensures read { ReadsUpTo D.Date.model W.Summary.Summary.model shelf.now root W.Machine.Machine.model (W.Watch.question watch.now) (W.Watch.summed watch.now) date.now result }
{
    watch.figure(&joined_up_to(shelf, root, date, watch))
}

// The slot of the standing entry that `k` others of the tree at a link stand in front of.
fn find_at<S: Summary>(shelf: &[Slot<S>], link: u16, k: u16, depth: u8) -> Option<u16>
    ensures selects { Selects S.Summary.model shelf.now link k depth result }
{
    let node = shelf.get(link as usize)?;
    let depth = depth.checked_sub(1)?;
    let before = count_at(shelf, node.left);
    if k < before {
        find_at(shelf, node.left, k, depth)
    } else if !node.standing {
        find_at(shelf, node.right, k - before, depth)
    } else if k == before {
        Some(link)
    } else {
        find_at(shelf, node.right, k - before - 1, depth)
    }
}

// The slot of the standing entry that `k` others stand in front of in book order.
pub fn find<D: Date, S: Summary>(shelf: &[Slot<S>], root: u16, k: u16) -> Option<u16>
    ensures found { Finds D.Date.model S.Summary.model shelf.now root k result }
{
    find_at(shelf, root, k, most_levels())
}
