//! Tests of frame_store: frames at the ends of chunks, the limit of frames, and bytes that are
//! lent.

#![tactic(auto)]

#[cfg(test)]
mod chunks;
#[cfg(test)]
mod lending;
#[cfg(test)]
mod limits;
