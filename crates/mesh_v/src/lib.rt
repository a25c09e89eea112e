//! Algorithm V of one node: two keyed tables, a row for each originator and a row for each pair of
//! an originator and a neighbour from which it was heard.

#![tactic(auto)]

mod answers;
mod best;
mod forward;
mod hearing;
pub mod laws;
mod ogm;
mod path;
mod row;
pub mod v;
mod writing;

pub use mesh_algo::Algo;
pub use v::V;

#[cfg(test)]
mod tests;
