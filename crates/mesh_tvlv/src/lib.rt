//! Containers, the type-version-length-value fields ("TVLV") that packets of batman-adv carry:
//! walking over them, reading and writing their bodies.
//!
//! The layouts are those of batman-adv's public `batadv_packet.h`: `batadv_tvlv_hdr`,
//! `batadv_tvlv_gateway_data`, `batadv_tvlv_tt_data` with `batadv_tvlv_tt_vlan_data` and
//! `batadv_tvlv_tt_change`, `batadv_tvlv_roam_adv`. The bodies of a multicast container and of a
//! part of a translation table, and the versions written, are batmesh's own. All numbers are
//! big-endian. Only the writers take memory.

#![tactic(auto)]

mod bodies;
pub mod laws;
pub mod layout;
mod piece;
mod soundness;
mod translation;
mod walk;
mod writing;

pub use bodies::{read_gw, read_mcast, read_roam};
pub use mesh_model::TvlvErr;
pub use soundness::{first_flaw, is_long_enough};
pub use translation::{TtView, read_tt, read_tt_part};
pub use walk::{Container, TvlvIter};
pub use writing::{
    key_bytes, write_change, write_container, write_container_head, write_tt_head,
    write_tt_part_head, write_vlan,
};
