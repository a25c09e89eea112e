//! The reading of a scenario's lines.
//!
//! `read_line` gives the command that a line says, or why it is refused. What a line says is
//! settled by `command_of_line` of mesh_model.

#![tactic(auto)]

mod alfred_forms;
mod client_forms;
mod gateways;
mod hex_bytes;
mod ip;
mod line;
mod line_err;
mod listed;
mod net_forms;
mod options;
mod route_line;
mod setting_forms;
mod taking;
mod terms;
mod words;

pub use line::read_line;
pub use line_err::LineErr;
pub use route_line::read_route;
