//! Tests of alfred_core: each of its calls once.

#![tactic(auto)]

#[cfg(test)]
mod facts;
#[cfg(test)]
mod primaries;
#[cfg(test)]
mod transactions;
