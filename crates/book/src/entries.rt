// The entries of a book.
ghost use Rattle.std.specs.Prelude.{◌≡◌, ◌<◌, ◌≤◌, false, [], length, get_or};
ghost use Rattle.std.specs.Result.{result_ok};
ghost use Rattle.book.specs.Answers.{Done, answer_in, read};
ghost use Rattle.book.specs.Order.{later, up_to, place, InBookOrder, KeepsOrder};
ghost use Rattle.book.specs.declared.entries.Entry.{Entry};
ghost use Rattle.book.specs.declared.call.Accepted.TheVariants.{Entered};
ghost use Rattle.book.specs.declared.call.Call.TheVariants.{Enter, Ask};

use crate::{Accepted, Call, Fault, Refusal};
use dates::Date;
use machines::{Machine, Operation, Question, check_operation, check_question};
use std::alloc::{AllocError, Global};
use std::marker::Model;

// An entry has the number under which it arrived, counted from 1, its date, and what is done to the machine.
#[derive(Clone, Copy)]
pub struct Entry<D> {
    pub number: usize,
    pub date: D,
    pub operation: Operation,
}

// The entries of a book in book order: by date, and those of one date by number. A caller sees the list alone, so the
// clauses `ordered` say of it what `invariant` does.
// The invariant reads the order of the dates, so the type names the bound that each of its functions has.
#[derive(Drop)]
pub struct Entries<D: Date> {
    entries: Vec<Entry<D>>,
}

impl<D: Date> Model for Entries<D> {
    ghost use Rattle.std.specs.Prelude.{List};
    ghost use Rattle.book.specs.Order.{InBookOrder};
    ghost use Rattle.book.specs.declared.entries.Entry.{Entry};

    ghost Value = { List (Entry D) };

    ghost view = { λ book. book.entries.items };

    ghost invariant = { λ book. InBookOrder D.Date.model book.entries.items };
}

impl<D: Date> Entries<D> {
    // A book with no entry.
    pub fn new(heap: Global) -> Entries<D>
        ensures none { result ≡ [] }
        ensures ordered { InBookOrder D.model result }
    {
        Entries {
            entries: Vec::new(heap),
        }
    }

    // Adds an entry.
    pub fn enter<M: Machine>(&mut self, date: D, operation: Operation) -> Result<usize, Fault>
        ensures done { Done D.Date.model M.Machine.model self.old (Enter date operation) (answer_in Entered result) self.new }
        ensures ordered { KeepsOrder D.Date.model self.old self.new }
    {
        check_operation::<M>(&operation)?;
        let number = self.entries.len() + 1;
        let place = self.place(&date);
        let entry = Entry {
            number,
            date,
            operation,
        };
        self.entries.insert(place, entry)?;
        Ok(number)
    }

    // Reads a new machine after the entries dated no later, and says how many these are.
    pub fn ask<M: Machine>(
        &self,
        heap: Global,
        date: &D,
        question: &Question,
    ) -> Result<(Option<i64>, usize), Fault>
        ensures { Done D.Date.model M.Machine.model self.now (Ask date.now question.now) (answer_in read result) self.now }
    {
        check_question::<M>(question)?;
        let mut machine = M::new(heap)?;
        let entries = self.up_to(date);
        for entry in entries {
            let _ = machine.step(&entry.operation);
        }
        Ok((machine.read(question), entries.len()))
    }

    // Does one call. It fails only for want of memory.
    pub fn answer<M: Machine>(
        &mut self,
        heap: Global,
        call: &Call<D>,
    ) -> Result<Result<Accepted, Refusal>, AllocError>
        ensures done { Done D.Date.model M.Machine.model self.old call.now (result_ok result) self.new }
        ensures ordered { KeepsOrder D.Date.model self.old self.new }
    {
        let accepted = match call {
            Call::Enter(date, operation) => self
                .enter::<M>(*date, *operation)
                .map(Accepted::Entered),
            Call::Ask(date, question) => self
                .ask::<M>(heap, date, question)
                .map(|(reading, count)| Accepted::Read(reading, count)),
        };
        accepted.map(Ok).or_else(Fault::answer)
    }

    // From where on a place is searched: the front, or an entry that is dated no later. The stretch behind it is doubled from
    // the end, so that two comparisons are enough where entries come in by rising dates.
    fn searched_from(&self, date: &D) -> usize
        ensures bound { result ≤ length self.now }
        ensures front { (d : Entry D) → 0 < result → (result < length self.now) × (later D.model date.now (get_or self.now result d) ≡ false) }
    {
        let entries = self.entries.as_slice();
        let mut reach = 1;
        while reach < entries.len() && entries[entries.len() - reach].date > *date {
            reach *= 2;
        }
        entries.len().saturating_sub(reach)
    }

    // Where a new entry of the date stands: in front of the entries that are later, which are at the end.
    fn place(&self, date: &D) -> usize
        ensures { result ≡ place D.model date.now self.now }
    {
        let from = self.searched_from(date);
        from + self.entries[from..].partition_point(|entry| entry.date <= *date)
    }

    // The entries dated no later, which stand at the front.
    fn up_to(&self, date: &D) -> &[Entry<D>]
        ensures { result.now ≡ up_to D.model date.now self.now }
    {
        &self.entries[..self.place(date)]
    }
}
