//! Reading the bytes of a place.
ghost use Rattle.std.specs.Prelude.{◌≡◌, ◌∷◌, ◌++◌, []};
ghost use Rattle.frame_store.specs.Chunks.{bytes_at, IsWithin};
ghost use Rattle.frame_store.specs.Frames.{chunks};
ghost use Rattle.frame_store.specs.Store.{IsApart};

use crate::grown::Grown;
use crate::older::Older;
use crate::place::Place;

/// The bytes at a place.
pub(crate) fn frame_at<'a>(older: &'a Older, grown: &'a Grown, place: Place) -> &'a [u8]
    requires within { IsWithin (chunks older.now grown.now) place }
    requires apart { IsApart older.now place }
    ensures { result.now ≡ bytes_at (chunks older.now grown.now) place }
{
    let (start, len) = (place.start as usize, place.len as usize);
    let chunk = place.chunk as usize;
    let closed = older.closed.len();
    if chunk < closed {
        return older.closed[chunk].part(start, len);
    }
    if closed < chunk {
        return grown.younger[chunk - closed - 1].part(start, len);
    }
    let filled = older.last.len();
    if start + len <= filled {
        older.last.part(start, len)
    } else {
        grown.staged.part(start - filled, len)
    }
}

/// The bytes at a place of the older chunks.
pub(crate) fn older_frame_at(older: &Older, place: Place) -> &[u8]
    requires { IsWithin (older.now.closed.items ++ older.now.last ∷ []) place }
    ensures { result.now ≡ bytes_at (older.now.closed.items ++ older.now.last ∷ []) place }
{
    let (start, len) = (place.start as usize, place.len as usize);
    let chunk = place.chunk as usize;
    if chunk < older.closed.len() {
        older.closed[chunk].part(start, len)
    } else {
        older.last.part(start, len)
    }
}
