ghost use Rattle.std.specs.Prelude.{◌≡◌, ◌+◌, ◌<◌, ◌≤◌, ◌++◌, [], ◌∷◌, ◌↔◌, length, slice_index_or, sum_by, IfErr, IfOk, IsOk, OnErr, OnOk};
ghost use Rattle.std.specs.Borrow.{sem};
ghost use Rattle.frame_store.specs.declared.failure.StoreErr.TheVariants.{Full};
ghost use Rattle.frame_store.specs.Frames.{frames, Passes, spare_bytes, spare_frames};
ghost use Rattle.frame_store.specs.Lending.{LendsTail};
ghost use Rattle.frame_store.specs.Store.{IsStore, IsTail};

use crate::chunk::Chunk;
use crate::failure::StoreErr;
use crate::growing;
use crate::grown::Grown;
use crate::older::Older;
use crate::reading::{frame_at, older_frame_at};
use crate::settling::settle;
use crate::tail::Tail;
use mesh_base::NoMemory;
use std::alloc::Global;

/// For how many chunks each list of chunks makes room at once.
const SPINE: usize = 1_026;

/// Frames, in the order in which they were pushed.
#[derive(Debug, Drop)]
pub struct FrameStore {
    older: Older,
    grown: Grown,
}

impl FrameStore {
    /// No frames.
    pub fn new(alloc: Global) -> FrameStore
        ensures stands { IsStore result.older result.grown }
        ensures list { frames result.older result.grown ≡ [] }
    {
        FrameStore {
            older: Older {
                closed: Vec::new(alloc),
                last: Chunk::none(alloc),
            },
            grown: Grown {
                staged: Chunk::none(alloc),
                younger: Vec::new(alloc),
                aside: Chunk::none(alloc),
                index: Vec::new(alloc),
                total: 0,
                alloc,
            },
        }
    }

    /// How many frames there are.
    pub fn len(&self) -> u32
        requires { IsStore self.now.older self.now.grown }
        ensures { result ≡ length (frames self.now.older self.now.grown) }
    {
        self.grown.index.len() as u32
    }

    /// The sum of the lengths of all frames.
    pub fn total(&self) -> u64
        requires { IsStore self.now.older self.now.grown }
        ensures { result ≡ sum_by length (frames self.now.older self.now.grown) }
    {
        self.grown.total
    }

    /// Pushes a frame behind all others, and answers its place, from 0.
    pub fn push(&mut self, bytes: &[u8]) -> Result<u32, StoreErr>
        requires { IsStore self.old.older self.old.grown }
        ensures stands { IsStore self.new.older self.new.grown }
        ensures ok { OnOk result (frames self.new.older self.new.grown
            ≡ frames self.old.older self.old.grown ++ bytes.now ∷ []) }
        ensures place { IfOk result
            (λ place. place ≡ length (frames self.old.older self.old.grown)) }
        ensures full { (result ≡ Err Full)
            ↔ Passes (frames self.old.older self.old.grown) (length bytes.now) }
        ensures err { OnErr result (frames self.new.older self.new.grown
            ≡ frames self.old.older self.old.grown) }
        // After a reserve that covers it, it never wants memory; and what is left covers the rest.
        ensures succeeds { 0 < spare_frames self.old.grown
            → length bytes.now ≤ spare_bytes self.old.older self.old.grown
            → IfErr result (λ e. e ≡ Full) }
        ensures spare_frames { spare_frames self.old.grown ≤ spare_frames self.new.grown + 1 }
        ensures spare_bytes { spare_bytes self.old.older self.old.grown
            ≤ spare_bytes self.new.older self.new.grown + length bytes.now }
    {
        if growing::passes(&self.older, &self.grown, bytes) {
            return Err(StoreErr::Full);
        }
        self.make_ready()?;
        let place = growing::push(&self.older, &mut self.grown, bytes)?;
        Ok(place)
    }

    /// Makes room for so many frames more, and so many bytes of them.
    pub fn reserve(&mut self, number: usize, bytes: usize) -> Result<(), NoMemory>
        requires { IsStore self.old.older self.old.grown }
        ensures stands { IsStore self.new.older self.new.grown }
        ensures list { frames self.new.older self.new.grown
            ≡ frames self.old.older self.old.grown }
        ensures ok { OnOk result ((number ≤ spare_frames self.new.grown)
            × (bytes ≤ spare_bytes self.new.older self.new.grown)) }
        ensures kept { (spare_frames self.old.grown ≤ spare_frames self.new.grown)
            × (spare_bytes self.old.older self.old.grown
            ≤ spare_bytes self.new.older self.new.grown) }
    {
        self.make_ready()?;
        growing::reserve(&self.older, &mut self.grown, number, bytes)
    }

    /// The bytes of the frame at a place.
    pub fn get(&self, place: u32) -> &[u8]
        requires stands { IsStore self.now.older self.now.grown }
        requires below { place < length (frames self.now.older self.now.grown) }
        ensures { result.now ≡ slice_index_or (frames self.now.older self.now.grown) place [] }
    {
        let place = self.grown.index[place as usize];
        frame_at(&self.older, &self.grown, place)
    }

    /// The bytes of the frame at a place, and the growing end of the store, which leaves them where
    /// they are. What the end is given up as, the store is.
    pub fn lend(&mut self, place: u32) -> (&[u8], Tail<'_>)
        requires stands { IsStore self.old.older self.old.grown }
        requires below { place < length (frames self.old.older self.old.grown) }
        ensures* writes_back { sem 𝓛 (LendsTail self.entry result.1) }
        ensures stands { IsTail result.1.older.now result.1.grown.now }
        ensures bytes { result.0.now
            ≡ slice_index_or (frames self.old.older self.old.grown) place [] }
        ensures list { frames result.1.older.now result.1.grown.now
            ≡ frames self.old.older self.old.grown }
        ensures spare_frames { spare_frames result.1.grown.now ≡ spare_frames self.old.grown }
        ensures spare_bytes { spare_bytes result.1.older.now result.1.grown.now
            ≡ spare_bytes self.old.older self.old.grown }
    {
        settle(&mut self.older, &mut self.grown);
        let at = self.grown.index[place as usize];
        let older = &self.older;
        let bytes = older_frame_at(older, at);
        (
            bytes,
            Tail {
                older,
                grown: &mut self.grown,
            },
        )
    }

    // Makes room for all chunks that can come, once.
    fn make_ready(&mut self) -> Result<(), NoMemory>
        requires { IsStore self.old.older self.old.grown }
        ensures stands { IsStore self.new.older self.new.grown }
        ensures ok { OnOk result (IsTail self.new.older self.new.grown) }
        ensures list { frames self.new.older self.new.grown
            ≡ frames self.old.older self.old.grown }
        ensures spare_frames { spare_frames self.new.grown ≡ spare_frames self.old.grown }
        ensures spare_bytes { spare_bytes self.new.older self.new.grown
            ≡ spare_bytes self.old.older self.old.grown }
        ensures succeeds { 0 < spare_frames self.old.grown → IsOk result }
    {
        let closed = SPINE.saturating_sub(self.older.closed.len());
        self.older.closed.reserve(closed)?;
        let younger = SPINE.saturating_sub(self.grown.younger.len());
        self.grown.younger.reserve(younger)?;
        Ok(())
    }
}
