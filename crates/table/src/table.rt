use crate::number::Numbered;

// An ordered table: records in lent memory, of which the first `len` are in use (all, where the memory has fewer).
// A slice with a length beside it, and no list that grows: the caller lends the memory, and the library has no heap. No ghost field says that the
// length is within the slice: a lent slice is not lent on through a struct that has one, so each call takes the lower of both.
#[derive(Drop)]
pub struct Table<'a, T: Numbered> {
    pub(crate) slots: &'a mut [T],
    pub(crate) len: usize,
}
