//! Tests of mesh_algo: how numbers meet lives, and how large a window is.

#![tactic(auto)]

#[cfg(test)]
mod restarts;
#[cfg(test)]
mod window_size;
