//! Tests of mesh_frag: each of its calls once.

#![tactic(auto)]

#[cfg(test)]
mod cuts;
#[cfg(test)]
mod frags;
#[cfg(test)]
mod packets;
