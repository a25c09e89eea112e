//! Tests of tt_table: changes of small tables and of a large one.

#![tactic(auto)]

#[cfg(test)]
mod changed_tables;
