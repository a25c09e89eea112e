ghost use Rattle.std.specs.Prelude.{◌≡◌, ◌+◌, ◌<◌, ◌≤◌, ◌++◌, [], ◌∷◌, ◌↔◌, length, sum_by, IfErr, IfOk, OnErr, OnOk};
ghost use Rattle.frame_store.specs.declared.failure.StoreErr.TheVariants.{Full};
ghost use Rattle.frame_store.specs.Frames.{frames, Passes, spare_bytes, spare_frames};
ghost use Rattle.frame_store.specs.Store.{IsTail};

use crate::failure::StoreErr;
use crate::growing;
use crate::grown::Grown;
use crate::older::Older;
use mesh_base::NoMemory;

/// The growing end of a store of which a frame is lent. Its two parts are public, so that a caller
/// can take it apart and hand them on.
#[derive(Debug, Drop)]
pub struct Tail<'a> {
    pub older: &'a Older,
    pub grown: &'a mut Grown,
}

impl Tail<'_> {
    /// How many frames there are.
    pub fn len(&self) -> u32
        requires { IsTail self.now.older.now self.now.grown.now }
        ensures { result ≡ length (frames self.now.older.now self.now.grown.now) }
    {
        self.grown.index.len() as u32
    }

    /// The sum of the lengths of all frames.
    pub fn total(&self) -> u64
        requires { IsTail self.now.older.now self.now.grown.now }
        ensures { result ≡ sum_by length (frames self.now.older.now self.now.grown.now) }
    {
        self.grown.total
    }

    /// Pushes a frame behind all others, and answers its place, from 0.
    pub fn push(&mut self, bytes: &[u8]) -> Result<u32, StoreErr>
        requires { IsTail self.old.older.now self.old.grown.now }
        ensures older { self.new.older ≡ self.old.older }
        ensures same_reference { self.new.grown.ghost_name ≡ self.old.grown.ghost_name }
        ensures stands { IsTail self.new.older.now self.new.grown.now }
        ensures ok { OnOk result (frames self.new.older.now self.new.grown.now
            ≡ frames self.old.older.now self.old.grown.now ++ bytes.now ∷ []) }
        ensures place { IfOk result
            (λ place. place ≡ length (frames self.old.older.now self.old.grown.now)) }
        ensures full { (result ≡ Err Full)
            ↔ Passes (frames self.old.older.now self.old.grown.now) (length bytes.now) }
        ensures err { OnErr result (frames self.new.older.now self.new.grown.now
            ≡ frames self.old.older.now self.old.grown.now) }
        // After a reserve that covers it, it never wants memory; and what is left covers the rest.
        ensures succeeds { 0 < spare_frames self.old.grown.now
            → length bytes.now ≤ spare_bytes self.old.older.now self.old.grown.now
            → IfErr result (λ e. e ≡ Full) }
        ensures spare_frames { spare_frames self.old.grown.now
            ≤ spare_frames self.new.grown.now + 1 }
        ensures spare_bytes { spare_bytes self.old.older.now self.old.grown.now
            ≤ spare_bytes self.new.older.now self.new.grown.now + length bytes.now }
    {
        if growing::passes(self.older, self.grown, bytes) {
            return Err(StoreErr::Full);
        }
        let place = growing::push(self.older, self.grown, bytes)?;
        Ok(place)
    }

    /// Makes room for so many frames more, and so many bytes of them.
    pub fn reserve(&mut self, number: usize, bytes: usize) -> Result<(), NoMemory>
        requires { IsTail self.old.older.now self.old.grown.now }
        ensures older { self.new.older ≡ self.old.older }
        ensures same_reference { self.new.grown.ghost_name ≡ self.old.grown.ghost_name }
        ensures stands { IsTail self.new.older.now self.new.grown.now }
        ensures list { frames self.new.older.now self.new.grown.now
            ≡ frames self.old.older.now self.old.grown.now }
        ensures ok { OnOk result ((number ≤ spare_frames self.new.grown.now)
            × (bytes ≤ spare_bytes self.new.older.now self.new.grown.now)) }
        ensures kept { (spare_frames self.old.grown.now ≤ spare_frames self.new.grown.now)
            × (spare_bytes self.old.older.now self.old.grown.now
            ≤ spare_bytes self.new.older.now self.new.grown.now) }
    {
        growing::reserve(self.older, self.grown, number, bytes)
    }
}
