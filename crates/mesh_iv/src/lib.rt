//! Algorithm IV of one node: two keyed tables, a row for each originator and a row for each pair of
//! an originator and a neighbour from which it was heard.

#![tactic(auto)]

mod answers;
mod best;
mod forward;
mod guesses;
mod hearing;
pub mod iv;
pub mod laws;
mod ogm;
mod path;
mod places;
mod quality;
mod row;
mod writing;

pub use iv::Iv;
pub use mesh_algo::Algo;

#[cfg(test)]
mod tests;
