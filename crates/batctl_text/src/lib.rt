//! Printed text: the tables of a node, after batctl(8), the text of `decode`, and the lines of what
//! happens in a run.
//!
//! Each call appends whole lines to a buffer, or leaves it as it was where memory runs out. A line
//! is a list of parts; `put_line` puts their texts together in a `LineText`, and then appends it.

#![tactic(auto)]

mod address_table;
mod claim_table;
mod container;
mod container_line;
mod decoding;
mod ending;
mod event_line;
mod fact_table;
mod global_table;
mod line_text;
mod local_table;
mod packet;
mod part;
mod probe_line;
mod question_line;
mod route_lines;
mod route_table;
mod service_table;
mod whole_line;

pub use address_table::{address_header, address_line};
pub use claim_table::{claim_header, claim_line};
pub use container_line::vlan_line;
pub use decoding::decode_text;
pub use event_line::line;
pub use fact_table::{fact_header, fact_line};
pub use global_table::{entry_line, global_header, global_line, mark_line};
pub use local_table::{local_header, local_line};
pub use route_lines::{clear_line, loop_line, route_line};
pub use route_table::{iv_link_line, link_header, orig_header, orig_line, v_link_line};
pub use service_table::{gateway_header, gateway_line, group_header, groups_line, joined_line};
