//! Tests of mesh_scenario: given lines, and what each says or why it is refused.

#![tactic(auto)]

#[cfg(test)]
mod commands;
#[cfg(test)]
mod refusals;
