// A shelf under a watch with what its owner keeps, which the program and the tests call alike. Days are written by their
// numbers, and slots by theirs.
use dates::DayNumber;
use machines::Operation;
use shelf::{add, count_before, count_up_to, figure_up_to, find, no_root, void};
use slots::Slot;
use watches::Watch;

// The lent slots of a shelf, with what their owner keeps: the root and the number of entries.
#[derive(Drop)]
pub struct Trial<'a, W: Watch> {
    pub(crate) watch: W,
    pub(crate) slots: &'a mut [Slot<W::Summary>],
    pub(crate) root: u16,
    pub(crate) entries: u16,
}

impl<'a, W: Watch + Drop> Trial<'a, W> {
    // A shelf in these slots, with no entry.
    pub(crate) fn new(watch: W, slots: &'a mut [Slot<W::Summary>]) -> Trial<'a, W> {
        Trial {
            watch,
            slots,
            root: no_root::<DayNumber, W::Summary>(),
            entries: 0,
        }
    }

    // Adds the next entry, under that day, and answers its slot, or none where it is refused.
    pub(crate) fn add(&mut self, day: i32, operation: Operation) -> Option<u16> {
        let n = self.entries;
        self.root = add(
            self.slots,
            self.root,
            n,
            &DayNumber::new(day),
            operation,
            &self.watch,
        )?;
        self.entries = n + 1;
        Some(n)
    }

    pub(crate) fn void(&mut self, slot: u16) {
        void::<DayNumber, W>(self.slots, self.root, slot, &self.watch);
    }

    // The slot of the standing entry behind so many others.
    pub(crate) fn find(&self, k: u16) -> Option<u16> {
        find::<DayNumber, W::Summary>(self.slots, self.root, k)
    }

    // How many standing entries are dated no later than the day.
    pub(crate) fn count_up_to(&self, day: i32) -> u16 {
        count_up_to(self.slots, self.root, &DayNumber::new(day))
    }

    // How many standing entries are in front of the one in the slot.
    pub(crate) fn count_before(&self, slot: u16) -> u16 {
        count_before::<DayNumber, W::Summary>(self.slots, self.root, slot)
    }

    // What the watch figures of the standing entries dated no later than the day.
    pub(crate) fn figure_up_to(&self, day: i32) -> i64 {
        figure_up_to(self.slots, self.root, &DayNumber::new(day), &self.watch)
    }
}
