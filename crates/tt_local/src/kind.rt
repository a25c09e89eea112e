use indexmap::IndexMap;
use mesh_base::NoMemory;
use tt_table::Sums;

/// What two commits of one byte and one table share: the byte, and a digest of the checksums. Other
/// commits may share it too.
#[derive(Clone, Copy, Debug, PartialEq, Eq, Hash)]
pub(crate) struct Kind {
    byte: u8,
    digest: u32,
}

impl Kind {
    /// That of a commit.
    pub(crate) fn new(byte: u8, sums: &Sums) -> Kind {
        Kind {
            byte,
            digest: digest_of(sums),
        }
    }
}

/// Keeps a commit of a kind, where none is kept yet.
pub(crate) fn keep(
    kinds: &mut IndexMap<Kind, usize>,
    kind: Kind,
    number: usize,
) -> Result<(), NoMemory> {
    if !kinds.contains_key(&kind) {
        kinds.insert(kind, number)?;
    }
    Ok(())
}

// The checksums of all VLANs in one number.
fn digest_of(sums: &Sums) -> u32 {
    let mut digest = 0u32;
    for place in 0..sums.len() {
        if let Some((_vid, sum)) = sums.at(place) {
            digest = digest.rotate_left(5) ^ sum;
        }
    }
    digest
}
