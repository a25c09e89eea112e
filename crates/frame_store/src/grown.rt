use crate::chunk::Chunk;
use crate::place::Place;
use std::alloc::Global;

/// All of a store that grows: what is to stand behind the bytes of the last older chunk, the chunks
/// that were begun since, the one that stands aside until it is begun, and all frames' places.
#[derive(Debug, Drop)]
pub struct Grown {
    pub(crate) staged: Chunk,
    pub(crate) younger: Vec<Chunk>,
    pub(crate) aside: Chunk,
    pub(crate) index: Vec<Place>,
    /// The sum of the lengths of all frames.
    pub(crate) total: u64,
    pub(crate) alloc: Global,
}
