// The changes of the tree: all of them go through `put`, which makes the tree of some parts and computes its figures.
// The rotations of Adelson-Velsky and Landis are compositions of it.
// The shelf and the watch stay two parameters. As fields of one struct they were tried: each method has to borrow the slice
// out of its field by a line of its own, and each contract has to say that the watch stays the same, which is no plainer.
ghost use Rattle.std.specs.Prelude.{◌≡◌, ◌<◌, ◌≤◌, length};
ghost use Rattle.std.specs.Option.{MatchOption};
ghost use Rattle.avl.specs.Tree.{node, turn_left, turn_right, lift_left, lift_right, balance};
ghost use Rattle.slots.specs.Slots.{parts, slot, Kept};
ghost use Rattle.slots.specs.Chain.{Makes};

use crate::figures::{figures_over, level_at};
use crate::{Parts, Slot};
use avl::Lean;
use watches::{Summary, Watch};

// Makes the tree of these parts, and answers the link to its top. A number that is no slot's changes nothing.
pub fn put<W: Watch>(shelf: &mut [Slot<W::Summary>], parts: Parts, watch: &W) -> u16
    ensures refused { length shelf.old ≤ parts.top → (result ≡ parts.top) × (shelf.new ≡ shelf.old) }
    ensures kept { Kept W.Summary.Summary.model shelf.old shelf.new }
    ensures makes { Makes W.Summary.Summary.model (W.Watch.summed watch.now) node shelf.old shelf.new parts.left parts.top parts.right result }
{
    if parts.top as usize >= shelf.len() {
        return parts.top;
    }
    let figures = figures_over(shelf, parts, watch);
    let node = &shelf[parts.top as usize];
    shelf[parts.top as usize] = Slot {
        left: parts.left,
        right: parts.right,
        level: figures.level,
        count: figures.count,
        joined: figures.joined,
        ..*node
    };
    parts.top
}

// The parts of the tree that a link leads to; none where it leads nowhere.
fn parts_at<S: Summary>(shelf: &[Slot<S>], link: u16) -> Option<Parts>
    ensures { MatchOption result (length shelf.now ≤ link) (λ up. (link < length shelf.now) × (up ≡ parts (slot S.Summary.model shelf.now link) link)) }
{
    shelf.get(link as usize).map(|slot| slot.parts(link))
}

// A rotation: the top of the right side comes up, and the old top goes down to the left of it.
fn turn_left<W: Watch>(shelf: &mut [Slot<W::Summary>], parts: Parts, watch: &W) -> u16
    ensures kept { Kept W.Summary.Summary.model shelf.old shelf.new }
    ensures makes { Makes W.Summary.Summary.model (W.Watch.summed watch.now) turn_left shelf.old shelf.new parts.left parts.top parts.right result }
{
    let Some(up) = parts_at(shelf, parts.right) else {
        return put(shelf, parts, watch);
    };
    let low = Parts {
        right: up.left,
        ..parts
    };
    let left = put(shelf, low, watch);
    put(shelf, Parts { left, ..up }, watch)
}

// The same the other way round. The mirrored functions stay two and two: with the side as a parameter, every link that
// they read or write would be chosen by a match.
fn turn_right<W: Watch>(shelf: &mut [Slot<W::Summary>], parts: Parts, watch: &W) -> u16
    ensures kept { Kept W.Summary.Summary.model shelf.old shelf.new }
    ensures makes { Makes W.Summary.Summary.model (W.Watch.summed watch.now) turn_right shelf.old shelf.new parts.left parts.top parts.right result }
{
    let Some(up) = parts_at(shelf, parts.left) else {
        return put(shelf, parts, watch);
    };
    let low = Parts {
        left: up.right,
        ..parts
    };
    let right = put(shelf, low, watch);
    put(shelf, Parts { right, ..up }, watch)
}

// The right side is two levels deeper, and comes up. Where its inner side is the deeper one, that is turned outwards first:
// the double rotation.
fn lift_right<W: Watch>(shelf: &mut [Slot<W::Summary>], parts: Parts, watch: &W) -> u16
    ensures kept { Kept W.Summary.Summary.model shelf.old shelf.new }
    ensures makes { Makes W.Summary.Summary.model (W.Watch.summed watch.now) lift_right shelf.old shelf.new parts.left parts.top parts.right result }
{
    let Some(up) = parts_at(shelf, parts.right) else {
        return put(shelf, parts, watch);
    };
    if level_at(shelf, up.right) < level_at(shelf, up.left) {
        let right = turn_right(shelf, up, watch);
        turn_left(shelf, Parts { right, ..parts }, watch)
    } else {
        turn_left(shelf, parts, watch)
    }
}

// The left side is two levels deeper, and comes up.
fn lift_left<W: Watch>(shelf: &mut [Slot<W::Summary>], parts: Parts, watch: &W) -> u16
    ensures kept { Kept W.Summary.Summary.model shelf.old shelf.new }
    ensures makes { Makes W.Summary.Summary.model (W.Watch.summed watch.now) lift_left shelf.old shelf.new parts.left parts.top parts.right result }
{
    let Some(up) = parts_at(shelf, parts.left) else {
        return put(shelf, parts, watch);
    };
    if level_at(shelf, up.right) > level_at(shelf, up.left) {
        let left = turn_left(shelf, up, watch);
        turn_right(shelf, Parts { left, ..parts }, watch)
    } else {
        turn_right(shelf, parts, watch)
    }
}

// Makes the tree of these parts, whose sides' levels may differ by two, with the rotations that balance wants. Answers the
// link to the top of what is made. A number that is no slot's changes nothing.
pub fn rebalance<W: Watch>(shelf: &mut [Slot<W::Summary>], parts: Parts, watch: &W) -> u16
    ensures refused { length shelf.old ≤ parts.top → (result ≡ parts.top) × (shelf.new ≡ shelf.old) }
    ensures kept { Kept W.Summary.Summary.model shelf.old shelf.new }
    ensures makes { Makes W.Summary.Summary.model (W.Watch.summed watch.now) balance shelf.old shelf.new parts.left parts.top parts.right result }
{
    if parts.top as usize >= shelf.len() {
        return parts.top;
    }
    match Lean::of(level_at(shelf, parts.left), level_at(shelf, parts.right)) {
        Lean::Even => put(shelf, parts, watch),
        Lean::Left => lift_left(shelf, parts, watch),
        Lean::Right => lift_right(shelf, parts, watch),
    }
}
