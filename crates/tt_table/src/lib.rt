//! Tables of clients: what changes lead from one table to another, whether they apply strictly, and
//! the checksums of the VLANs, which a table keeps as it changes.

#![tactic(auto)]

pub mod announcement;
pub mod checksum;
mod difference;
pub mod entries;
pub mod failure;
mod strict;
pub mod sums;
pub mod table;
mod totals;
mod vlan_total;

pub use announcement::Announcement;
pub use checksum::{crc32c, entry_sum};
pub use entries::Entries;
pub use failure::ApplyErr;
pub use mesh_model::{Change, Changes, Difference};
pub use sums::Sums;
pub use table::Table;
