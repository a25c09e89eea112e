//! Tests of mesh_serv: each of its calls once.

#![tactic(auto)]

#[cfg(test)]
mod choices;
#[cfg(test)]
mod offers;
