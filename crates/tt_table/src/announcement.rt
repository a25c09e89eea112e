use crate::sums::Sums;
use mesh_model::Changes;

/// What a node announces of its table.
#[derive(Debug, Drop)]
pub struct Announcement {
    /// The byte of its last commit.
    pub byte: u8,
    /// The checksums of the VLANs that have entries in it.
    pub sums: Sums,
    /// The commit's changes, or none.
    pub changes: Changes,
}
