// The calls of a shelf, and what is read of it, that the tests need beside those of the program.
use crate::entries::{change, day};
use crate::trial::Trial;
use dates::DayNumber;
use machines::{Counter, Note, Operation};
use shelf::{joined_up_to, set_note};
use std::alloc::Global;
use std::test::Fail;
use watches::Watch;

impl<W: Watch + Drop> Trial<'_, W> {
    // Adds the next entry, under that day.
    pub(crate) fn enter(&mut self, number: i32, operation: Operation) -> Result<(), Fail> {
        let n = self.entries;
        self.add(number, operation).ok_or_else(|| Fail::new(format_args!(
            "slot {n}: the entry is refused"
        )))?;
        Ok(())
    }

    // Adds an entry under each of those days, which changes cell 0 by 1.
    pub(crate) fn enter_days(&mut self, numbers: &[i32]) -> Result<(), Fail> {
        for number in numbers {
            self.enter(*number, change(0, 1))?;
        }
        Ok(())
    }

    pub(crate) fn set_note(&mut self, slot: u16, note: Note) {
        set_note::<DayNumber, W::Summary>(self.slots, slot, note);
    }

    // The links of the slot to the left and to the right, and the levels of the tree that it is the top of.
    pub(crate) fn tree_at(&self, slot: u16) -> Option<(u16, u16, u16)> {
        let top = self.slots.get(slot as usize)?;
        Some((top.left, top.right, top.level))
    }

    // The levels and the standing entries of the whole tree.
    pub(crate) fn size(&self) -> Option<(u16, u16)> {
        let top = self.slots.get(self.root as usize)?;
        Some((top.level, top.count))
    }

    // The joined summaries of the standing entries dated no later than the day.
    pub(crate) fn joined_up_to(&self, number: i32) -> W::Summary {
        joined_up_to(self.slots, self.root, &day(number), &self.watch)
    }

    // What the watched machine reads after steps with the standing entries dated no later than the day.
    fn read_up_to(&self, heap: Global, number: i32) -> Result<Option<i64>, Fail> {
        let mut counter = Counter::<W::Machine>::new(heap)?;
        for k in 0..self.count_up_to(number) {
            let i = self.find(k).ok_or("fewer entries than are counted")?;
            let slot = self.slots.get(i as usize).ok_or("no such slot")?;
            counter.step(&slot.operation);
        }
        Ok(counter.read(&self.watch.question()))
    }

    // What the watch figures up to the day, which the stepped machine has to read too.
    pub(crate) fn checked_figure_up_to(&self, heap: Global, number: i32) -> Result<i64, Fail> {
        let figure = self.figure_up_to(number);
        let read = self.read_up_to(heap, number)?;
        if read != Some(figure) {
            return Err(Fail::new(format_args!(
                "up to day {number} the watch figures {figure}, and the machine reads {read:?}"
            )));
        }
        Ok(figure)
    }
}
