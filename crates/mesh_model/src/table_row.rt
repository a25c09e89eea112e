use mesh_base::{Entry, Mac, Millis};

/// A present client of a node: its entry and how long ago it was last sighted. A joined group has
/// no age.
#[derive(Clone, Copy, Debug, PartialEq, Eq)]
pub struct LocalRow {
    pub entry: Entry,
    pub age: Option<Millis>,
}

/// What is known of an originator's table: the byte under which one is held, the byte that was
/// announced last, and whether the held byte and sums are the announced ones.
#[derive(Clone, Copy, Debug, PartialEq, Eq)]
pub struct GlobalRow {
    pub orig: Mac,
    pub held: Option<u8>,
    pub told: u8,
    pub ok: bool,
}
