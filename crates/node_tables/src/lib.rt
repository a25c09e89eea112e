//! The rows of a node for tables: originator messages, requests and answers, here and on the way,
//! and ticks and reboots with their commits.

#![tactic(auto)]

mod announcements;
mod answers;
pub mod containers;
pub mod elps;
pub mod ogms;
pub mod on_the_way;
pub mod reboots;
mod replies;
pub mod ticks;
