//! Laws of the text that a run prints: each the contract of a function that does nothing. The text
//! is read back, from its lines to what was printed, and so the laws of tables and frames hold of
//! the text.

#![tactic(auto)]

pub mod line_laws;
pub mod text_laws;
