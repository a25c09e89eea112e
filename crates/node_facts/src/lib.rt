//! The rows of the fact store: facts that lines put and ask for, the picture that a node puts of
//! itself, the rounds in which facts are told, and messages that came.

#![tactic(auto)]

pub mod asking;
mod lists;
pub mod messages;
pub mod pictures;
mod primaries;
pub mod rounds;
mod sending;
mod telling;
