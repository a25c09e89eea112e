ghost use Rattle.std.specs.Prelude.{◌≡◌, ◌+◌, ◌≤◌, ◌++◌, [], length, take, drop, IfOk, OnOk};

use mesh_base::NoMemory;
use std::alloc::Global;
use std::marker::Model;

/// Memory of a fixed size, which bytes fill from its front. Its bytes never move, since it is
/// allocated once, in its whole size.
#[derive(Debug, Drop)]
pub struct Chunk {
    bytes: Vec<u8>,
    size: usize,
}

impl Model for Chunk {
    ghost use Rattle.std.specs.Prelude.{◌≤◌};
    ghost use Rattle.std.specs.Vec.{vec_len, vec_capacity};
    ghost use Rattle.frame_store.specs.Filling.{Filling};

    ghost Value = { Filling };

    ghost view = { λ c. record { bytes = c.bytes.items; size = c.size } };

    ghost invariant = { λ c. (vec_len c.bytes ≤ c.size) × (c.size ≤ vec_capacity c.bytes) };
}

impl Chunk {
    /// A chunk of no bytes, which takes no memory.
    pub(crate) fn none(alloc: Global) -> Chunk
        ensures { result ≡ record { bytes = []; size = 0 } }
    {
        Chunk {
            bytes: Vec::new(alloc),
            size: 0,
        }
    }

    /// A chunk that nothing fills yet.
    pub(crate) fn of_size(alloc: Global, size: usize) -> Result<Chunk, NoMemory>
        ensures { IfOk result (λ chunk. chunk ≡ record { bytes = []; size = size }) }
    {
        let bytes = Vec::with_capacity(alloc, size)?;
        Ok(Chunk { bytes, size })
    }

    /// How many bytes it holds at most.
    pub(crate) fn size(&self) -> usize
        ensures { result ≡ self.now.size }
    {
        self.size
    }

    /// How many bytes fill it.
    pub(crate) fn len(&self) -> usize
        ensures { result ≡ length self.now.bytes }
    {
        self.bytes.len()
    }

    /// How many more bytes it holds.
    pub(crate) fn rest(&self) -> usize
        ensures { length self.now.bytes + result ≡ self.now.size }
    {
        self.size - self.bytes.len()
    }

    /// The bytes that fill it.
    pub(crate) fn filled(&self) -> &[u8]
        ensures { result.now ≡ self.now.bytes }
    {
        &self.bytes
    }

    /// So many of its bytes, from one on.
    pub(crate) fn part(&self, start: usize, len: usize) -> &[u8]
        requires { start + len ≤ length self.now.bytes }
        ensures { result.now ≡ take len (drop start self.now.bytes) }
    {
        &self.bytes[start..start + len]
    }

    /// Fills it further.
    pub(crate) fn append(&mut self, bytes: &[u8])
        requires { length self.old.bytes + length bytes.now ≤ self.old.size }
        ensures { self.new ≡ record self.old { bytes = self.old.bytes ++ bytes.now } }
    {
        self.bytes.extend_from_slice(bytes).unwrap();
    }

    /// Nothing fills it any more.
    pub(crate) fn clear(&mut self)
        ensures { self.new ≡ record self.old { bytes = [] } }
    {
        self.bytes.clear();
    }

    /// Makes it hold so many bytes, where it holds fewer.
    pub(crate) fn enlarge(&mut self, size: usize) -> Result<(), NoMemory>
        ensures bytes { self.new.bytes ≡ self.old.bytes }
        ensures size { self.old.size ≤ self.new.size }
        ensures ok { OnOk result (size ≤ self.new.size) }
    {
        if self.size < size {
            self.bytes.reserve(size - self.bytes.len())?;
            self.size = size;
        }
        Ok(())
    }
}
