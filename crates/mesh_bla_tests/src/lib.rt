//! Tests of mesh_bla: the cases in which a gateway passes, claims or holds back a frame.

#![tactic(auto)]

#[cfg(test)]
mod cases;
#[cfg(test)]
mod rows;
