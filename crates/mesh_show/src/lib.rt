//! What a node shows, as text: its tables, and the events of its steps.

#![tactic(auto)]

mod choosable;
mod claims;
mod clients;
mod events;
mod known;
mod routes;
mod rows;
mod seen;
mod services;
mod tables;

pub use choosable::Choosable;
pub use events::put_events;
pub use known::ok_count;
pub use tables::show_table;
