//! Tests of mesh_base: what no contract says of it.

#![tactic(auto)]

#[cfg(test)]
mod files;
#[cfg(test)]
mod values;
