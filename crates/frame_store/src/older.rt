use crate::chunk::Chunk;
use std::alloc::Global;

/// What a store holds and doesn't change while a frame of it is lent: chunks that take no more, and
/// the last one, behind whose bytes there may be room.
#[derive(Debug, Drop)]
pub struct Older {
    pub(crate) closed: Vec<Chunk>,
    pub(crate) last: Chunk,
}
