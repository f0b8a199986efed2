// Why a table does not take a record in. Who holds the table says what number and layer that is.
// No `Display` and `Error`: a holder's fault is made of it, and that one is printed.
#[derive(Clone, Copy, Debug, PartialEq, Eq)]
pub enum TableFault<K> {
    // a record has this number already
    Present { number: K },
    // every slot of the table is in use
    Full { capacity: usize },
}
