//! Tests of mesh_run: the program over inputs and outputs in memory that come in pieces, fail, or
//! are watched.

#![tactic(auto)]

#[cfg(test)]
mod calls;
#[cfg(test)]
mod chain;
#[cfg(test)]
mod ended;
#[cfg(test)]
mod faults;
#[cfg(test)]
mod order;
#[cfg(test)]
mod rows;
