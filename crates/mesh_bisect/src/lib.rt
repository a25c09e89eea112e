//! Loops of routes as lines tell of them, moment by moment.

#![tactic(auto)]

mod bisect;
mod failure;
mod report_text;

pub use bisect::Bisect;
pub use failure::BisectErr;
