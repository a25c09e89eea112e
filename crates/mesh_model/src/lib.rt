//! What a reader of batmesh believes: the plain data that definitions speak of and, in `specs/`,
//! the definitions.
//!
//! Read `specs/` in the order of its `Lib.antt`, room by room. `mesh_laws` says what holds of the
//! definitions, `mesh_rows` computes small scenarios from them.

#![tactic(auto)]

pub mod act;
pub mod claim;
pub mod ending;
pub mod frame_choice;
pub mod happening;
pub mod input_kind;
pub mod line_form;
pub mod link_frame;
pub mod name_list;
pub mod packet;
pub mod probe;
pub mod roaming_mark;
pub mod route;
pub mod route_line;
pub mod route_loop;
pub mod service;
pub mod table_change;
pub mod table_outcome;
pub mod table_row;

pub use act::Act;
pub use claim::{ClaimRow, Spread, Verdict};
pub use ending::{LimitName, Refusal, Stop};
pub use frame_choice::FrameChoice;
pub use happening::{Class, Happening};
pub use input_kind::InputKind;
pub use line_form::{AlfredMode, Algorithm, Command, Policy, Table};
pub use link_frame::{Ending, NoPacket, TvlvErr};
pub use name_list::NameList;
pub use packet::Head;
pub use probe::{OpenProbe, Probe, Told};
pub use roaming_mark::RoamingMark;
pub use route::{Beats, Hearing, LinkRow, Meeting, OrigRow};
pub use route_line::{RouteLine, RoutePair, RouteReading};
pub use route_loop::{Loop, LoopList, NodeList};
pub use service::{ArpRow, Fact, FactKey, FactList, Fan, GwRow, KeptFact, Mark, Pair, PrimaryRow};
pub use table_change::{Change, Changes};
pub use table_outcome::{Difference, Heard, Request, Taken};
pub use table_row::{GlobalRow, LocalRow};
