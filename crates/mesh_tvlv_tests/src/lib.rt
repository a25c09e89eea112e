//! Tests of mesh_tvlv: given bytes of containers.

#![tactic(auto)]

#[cfg(test)]
mod containers;
