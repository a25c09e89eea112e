//! Tests of mesh_dat: each of its calls once.

#![tactic(auto)]

#[cfg(test)]
mod cache;
#[cfg(test)]
mod nearest;
