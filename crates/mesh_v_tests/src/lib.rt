//! Tests of mesh_v: what is sent at ticks, a chain of links, restarts, and what counts no more.

#![tactic(auto)]

#[cfg(test)]
mod chain;
#[cfg(test)]
mod old;
#[cfg(test)]
mod restarts;
#[cfg(test)]
mod ticks;
