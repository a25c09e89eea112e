//! Tests of mesh_loops: each of its calls once.

#![tactic(auto)]

#[cfg(test)]
mod watch;
