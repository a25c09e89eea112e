use mesh_base::{Entry, Items};

/// A list of changes.
pub type Changes = Items<Change>;

/// A change of a table: an entry that comes, or one that goes.
#[derive(Clone, Copy, Debug, PartialEq, Eq)]
pub struct Change {
    pub entry: Entry,
    /// Whether the entry goes.
    pub del: bool,
}
