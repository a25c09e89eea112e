use mesh_base::{Key, Mac, Millis};

/// How far a client frame from the mesh is meant to go.
#[derive(Clone, Copy, Debug, PartialEq, Eq)]
pub enum Spread {
    /// To one client.
    Unicast,
    /// To a group.
    Flood,
    /// To a group, by a broadcast of a gateway of this LAN.
    SameLan,
}

/// What a gateway does with a client frame.
#[derive(Clone, Copy, Debug, PartialEq, Eq)]
pub struct Verdict {
    /// Whether the frame goes on.
    pub pass: bool,
    /// Whether a claim frame is put first.
    pub claim: bool,
}

/// A claim that stands: its key, its holder, and how long ago the holder's last claim frame came.
#[derive(Clone, Copy, Debug, PartialEq, Eq)]
pub struct ClaimRow {
    pub key: Key,
    pub holder: Mac,
    pub age: Millis,
}
