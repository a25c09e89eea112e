//! Tests of mesh_codec: given bytes of client frames and of frames of a LAN, and tails that a
//! header can't have.

#![tactic(auto)]

#[cfg(test)]
mod lans;
#[cfg(test)]
mod payloads;
#[cfg(test)]
mod tails;
