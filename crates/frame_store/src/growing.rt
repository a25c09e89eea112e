//! What the calls of a store and of its tail do to the part that grows.
ghost use Rattle.std.specs.Prelude.{◌≡◌, ◌+◌, ◌<◌, ◌≤◌, ◌++◌, ◌↔◌, [], ◌∷◌, length, IfOk, IsOk, IsTrue, OnErr, OnOk};
ghost use Rattle.frame_store.specs.Frames.{frames, Passes, spare_bytes, spare_frames};
ghost use Rattle.frame_store.specs.Store.{IsStore, IsTail};

use crate::chunk::Chunk;
use crate::grown::Grown;
use crate::older::Older;
use crate::writing::{CHUNK_SIZE, newest_rest, write};
use mesh_base::NoMemory;

/// The most frames.
const FRAMES_LIMIT: usize = 4_194_304;
/// The most bytes of frames.
const BYTES_LIMIT: u64 = 536_870_912;

/// Pushes a frame that passes no limit behind all others, and answers its place.
pub(crate) fn push(older: &Older, grown: &mut Grown, bytes: &[u8]) -> Result<u32, NoMemory>
    requires tail { IsTail older.now grown.old }
    requires within { Passes (frames older.now grown.old) (length bytes.now) → ⊥ }
    ensures stands { IsTail older.now grown.new }
    ensures ok { OnOk result
        (frames older.now grown.new ≡ frames older.now grown.old ++ bytes.now ∷ []) }
    ensures place { IfOk result (λ place. place ≡ length (frames older.now grown.old)) }
    ensures err { OnErr result (frames older.now grown.new ≡ frames older.now grown.old) }
    ensures succeeds { 0 < spare_frames grown.old
        → length bytes.now ≤ spare_bytes older.now grown.old → IsOk result }
    ensures spare_frames { spare_frames grown.old ≤ spare_frames grown.new + 1 }
    ensures spare_bytes { spare_bytes older.now grown.old
        ≤ spare_bytes older.now grown.new + length bytes.now }
{
    grown.index.reserve(1)?;
    let place = write(older, grown, bytes)?;
    let number = grown.index.len() as u32;
    grown.index.push_reserved(place);
    grown.total += bytes.len() as u64;
    Ok(number)
}

/// Whether one more frame would pass a limit. What grows tells it alone.
pub(crate) fn passes(_older: &Older, grown: &Grown, bytes: &[u8]) -> bool
    requires { IsStore _older.now grown.now }
    ensures { IsTrue result ↔ Passes (frames _older.now grown.now) (length bytes.now) }
{
    FRAMES_LIMIT <= grown.index.len() || BYTES_LIMIT < grown.total + bytes.len() as u64
}

/// Makes room for so many frames more, and so many bytes of them.
pub(crate) fn reserve(
    older: &Older,
    grown: &mut Grown,
    number: usize,
    bytes: usize,
) -> Result<(), NoMemory>
    requires { IsTail older.now grown.old }
    ensures stands { IsTail older.now grown.new }
    ensures list { frames older.now grown.new ≡ frames older.now grown.old }
    ensures ok { OnOk result
        ((number ≤ spare_frames grown.new) × (bytes ≤ spare_bytes older.now grown.new)) }
    ensures kept { (spare_frames grown.old ≤ spare_frames grown.new)
        × (spare_bytes older.now grown.old ≤ spare_bytes older.now grown.new) }
{
    grown.index.reserve(number)?;
    if newest_rest(older, grown) < bytes && grown.aside.size() < bytes {
        let size = bytes.max(CHUNK_SIZE);
        grown.staged.enlarge(size)?;
        grown.aside = Chunk::of_size(grown.alloc, size)?;
    }
    Ok(())
}
