// How much memory a request is lent, and how many rows it needs.
#[derive(Clone, Copy)]
pub(crate) struct Lent {
    pub(crate) rows_needed: usize,
    pub(crate) rows: usize,
    pub(crate) ports: usize,
    pub(crate) reply: usize,
}
