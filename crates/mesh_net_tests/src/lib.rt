//! Tests of mesh_net: a run past the clock's last moment, and a call behind it.

#![tactic(auto)]

#[cfg(test)]
mod late_runs;
