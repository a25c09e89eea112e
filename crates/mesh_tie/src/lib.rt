//! Laws of all tables in a mesh, whatever its network loses, repeats, holds or delivers late: each
//! the contract of a function that does nothing. Each step of a mesh is a list of moves of the
//! table machine; what holds of its worlds holds of every mesh that is reached.

#![tactic(auto)]

pub mod alias_laws;
pub mod cut_laws;
pub mod held_laws;
pub mod run_laws;
pub mod sent_laws;
pub mod tie_laws;
