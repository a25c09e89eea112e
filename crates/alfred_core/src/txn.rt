use mesh_model::FactList;

/// What there is of a transaction behind a message.
#[derive(Debug, Drop)]
pub enum Txn {
    /// It isn't whole: `have` is how many different part numbers came since it was opened, those
    /// at or above the count included; `want` is the count of its first end, `None` before an end
    /// came.
    Open { have: u32, want: Option<u16> },
    /// It is whole: its facts, in order of part number.
    Whole(FactList),
}
