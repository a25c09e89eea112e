//! Worked rows: small scenarios, and bytes, with what is printed of them, and single lines with the
//! command that each gives. The checker computes them from the definitions of `mesh_model` alone.
//! No other crate stands on this one, so an edited row proves nothing else anew.

#![tactic(auto)]

pub mod address_rows;
pub mod algorithm_rows;
pub mod bisect_rows;
pub mod bridge_rows;
pub mod client_rows;
pub mod commit_rows;
pub mod container_rows;
pub mod decode_rows;
pub mod event_rows;
pub mod fact_rows;
pub mod fragment_rows;
pub mod generated_rows;
pub mod lan_rows;
pub mod line_rows;
pub mod loop_rows;
pub mod mark_rows;
pub mod net_rows;
pub mod network_rows;
pub mod part_rows;
pub mod picture_rows;
pub mod probe_rows;
pub mod restart_rows;
pub mod route_rows;
pub mod rows;
pub mod service_rows;
pub mod serving_rows;
pub mod session_rows;
pub mod table_rows;
pub mod throughput_rows;
pub mod watch_rows;
pub mod word_rows;
