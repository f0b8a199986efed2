// Records in slices, by their numbers. Nothing here asks that they ascend.
ghost use Rattle.std.specs.Prelude.{◌≡◌, ◌+◌, ◌<◌, ◌≤◌, ◌++◌, length, take, drop, Some};
ghost use Rattle.std.specs.List.{insert, slice_get, position};
ghost use Rattle.std.specs.Ordering.{is_ge};
ghost use Rattle.table.specs.Orders.{first_place, search_answer};
ghost use Rattle.table.specs.Tables.{insert_answer, slots_after_insert, table_over, table_answer, table_after_insert};

use crate::fault::TableFault;
use crate::number::Numbered;

// The record at a place, where there is one.
pub fn record_at<T: Copy>(records: &[T], place: usize) -> Option<T>
    ensures { result ≡ slice_get records.now place }
{
    records.get(place).copied()
}

// Where a record first has a number at or above this one, if one has.
fn find_place<T: Numbered>(records: &[T], number: T::Number) -> Option<usize>
    ensures { result ≡ position (λ x. is_ge (T.Number.cmp (T.key x) number)) records.now }
{
    records.iter().position(|record| record.number() >= number)
}

// The first place whose record has a number at or above this one, else the length.
#[tactic(auto, using(crate::proofs::Places::first_place_is_found))]
pub fn first_place<T: Numbered>(records: &[T], number: T::Number) -> usize
    ensures { result ≡ first_place T.Number.cmp T.key number records.now }
{
    find_place(records, number).unwrap_or(records.len())
}

// The first place at or above a number: `Ok` where its record has that number, `Err` where a record with it would go.
// No `binary_search`: its answer is known for records that ascend, and this one for all.
#[tactic(auto, using(crate::proofs::Places::there_at))]
fn locate<T: Numbered>(records: &[T], number: T::Number) -> Result<usize, usize>
    ensures { result ≡ search_answer T.Number.cmp T.key number records.now }
{
    let place = first_place(records, number);
    match record_at(records, place) {
        Some(record) if record.number() == number => Ok(place),
        _ => Err(place),
    }
}

// Puts a record at a place among the first `len` slots, and moves those behind it up by one.
// No `copy_within`: it moves one record at a time, and took 3.5 times as long for 2,048 records.
fn insert_at<T: Copy>(slots: &mut [T], place: usize, len: usize, item: T)
    requires inside { place ≤ len }
    requires room { len < length slots.old }
    ensures { slots.new ≡ insert (take len slots.old) place item ++ drop (len + 1) slots.old }
{
    slots[len] = item;
    slots[place..len + 1].rotate_right(1);
}

// Puts a record in its place among the first `len` slots.
#[tactic(auto, using(crate::proofs::Places::places))]
fn insert_record<T: Numbered>(
    slots: &mut [T],
    len: usize,
    item: T,
) -> Result<usize, TableFault<T::Number>>
    requires { len ≤ length slots.old }
    ensures refused_exactly_if_there_or_full { result ≡ insert_answer T.Number.cmp T.key item len slots.old }
    ensures moves_those_behind_it_up { slots.new ≡ slots_after_insert T.Number.cmp T.key item len slots.old }
{
    let number = item.number();
    match locate(&slots[..len], number) {
        Ok(_) => Err(TableFault::Present { number }),
        Err(_) if len >= slots.len() => Err(TableFault::Full { capacity: len }),
        Err(place) => {
            insert_at(slots, place, len, item);
            Ok(place)
        }
    }
}

// Puts a record in its place among the first `len` slots (all, where the memory has fewer), and moves those behind it up by one.
// Answers the place.
pub fn insert_into<T: Numbered>(
    slots: &mut [T],
    len: usize,
    item: T,
) -> Result<usize, TableFault<T::Number>>
    ensures refused_exactly_if_there_or_full { result ≡ table_answer T.Number.cmp T.key item (table_over len slots.old) }
    ensures moves_those_behind_it_up { slots.new ≡ (table_after_insert T.Number.cmp T.key item (table_over len slots.old)).slots }
{
    let used = len.min(slots.len());
    insert_record(slots, used, item)
}
