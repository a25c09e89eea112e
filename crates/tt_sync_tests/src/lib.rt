//! Tests of tt_sync: what is held back.

#![tactic(auto)]

#[cfg(test)]
mod holding_back;
