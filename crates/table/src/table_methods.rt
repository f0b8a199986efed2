ghost use Rattle.std.specs.Prelude.{◌≡◌};
ghost use Rattle.std.specs.List.{slice_get};
ghost use Rattle.table.specs.Orders.{first_place};
ghost use Rattle.table.specs.Tables.{table_of, in_use, table_over, table_answer, table_after_insert, table_after_replace};

use crate::fault::TableFault;
use crate::number::Numbered;
use crate::ordered::{first_place, insert_into, record_at};
use crate::table::Table;

impl<'a, T: Numbered> Table<'a, T> {
    // The table over this memory, of which the first `len` records are in use.
    pub fn over(slots: &'a mut [T], len: usize) -> Self
        ensures holds_the_memory { table_of result ≡ table_over len slots.old }
        ensures lends_the_memory { result.slots.ghost_name ≡ slots.entry.ghost_name }
    {
        let len = len.min(slots.len());
        Table { slots, len }
    }

    // How many records are in use.
    pub fn len(&self) -> usize
        ensures { result ≡ (table_of self.now).used }
    {
        self.len.min(self.slots.len())
    }

    // The records in use.
    fn in_use(&self) -> &[T]
        ensures { result.now ≡ in_use (table_of self.now) }
    {
        &self.slots[..self.len()]
    }

    // The record at a place, where one is in use.
    pub fn get(&self, place: usize) -> Option<T>
        ensures { result ≡ slice_get (in_use (table_of self.now)) place }
    {
        record_at(self.in_use(), place)
    }

    // The first place whose record has a number at or above this one, else the length.
    pub fn first_place(&self, number: T::Number) -> usize
        ensures { result ≡ first_place T.Number.cmp T.key number (in_use (table_of self.now)) }
    {
        first_place(self.in_use(), number)
    }

    // Puts a record in its place, and moves those behind it up by one. Answers the place.
    pub fn insert(&mut self, item: T) -> Result<usize, TableFault<T::Number>>
        ensures refused_exactly_if_there_or_full { result ≡ table_answer T.Number.cmp T.key item (table_of self.old) }
        ensures moves_those_behind_it_up { table_of self.new ≡ table_after_insert T.Number.cmp T.key item (table_of self.old) }
        ensures lends_the_same_memory { self.new.slots.ghost_name ≡ self.old.slots.ghost_name }
    {
        let len = self.len();
        let place = insert_into(self.slots, len, item)?;
        self.len = len + 1;
        Ok(place)
    }

    // Puts another record at a place, where one is in use.
    pub fn replace(&mut self, place: usize, item: T)
        ensures replaces_this_record_alone { table_of self.new ≡ table_after_replace place item (table_of self.old) }
        ensures lends_the_same_memory { self.new.slots.ghost_name ≡ self.old.slots.ghost_name }
    {
        if place < self.len() {
            self.slots[place] = item;
        }
    }
}
