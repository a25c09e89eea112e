use mesh_base::Bytes;

/// What there is of a packet behind a fragment.
#[derive(Debug, Drop)]
pub enum Frag {
    /// It isn't whole: `have` is how many places of it came since its first part.
    Open { have: u16 },
    /// It is whole: its bytes.
    Whole(Bytes),
}
