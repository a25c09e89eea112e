//! Tests of mesh_vis: each of its calls once, and the bytes and the text of worked pictures.

#![tactic(auto)]

#[cfg(test)]
mod pictures;
#[cfg(test)]
mod reports;
