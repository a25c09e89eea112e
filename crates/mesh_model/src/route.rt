use crate::packet::Head;
use mesh_base::{Mac, Millis};

/// What a routing algorithm sends on all links at an own tick.
#[derive(Clone, Copy, Debug, PartialEq, Eq)]
pub struct Beats {
    /// The message of the echo location protocol, which algorithm V sends.
    pub elp: Option<Head>,
    /// The own originator message.
    pub ogm: Option<Head>,
}

/// What a routing algorithm makes of a packet's head.
#[derive(Clone, Copy, Debug, PartialEq, Eq)]
pub struct Hearing {
    /// Whether the originator's announcement is taken from this packet.
    pub accepted: bool,
    /// Whether a life of the originator begins with it.
    pub began: bool,
    /// What is sent on, on all links, with the packet's containers.
    pub forward: Option<Head>,
}

/// How a number meets the life of its originator in which it comes: it is late, or a restart, or
/// neither. It is one of the two where it is far from the newest number of that life.
#[derive(Clone, Copy, Debug, PartialEq, Eq)]
pub struct Meeting {
    /// Whether it counts for the life alone: the life is too young for another to begin.
    pub late: bool,
    /// Whether a life begins with it.
    pub restart: bool,
}

/// A live originator as a node knows it.
#[derive(Clone, Copy, Debug, PartialEq, Eq)]
pub struct OrigRow {
    pub orig: Mac,
    /// The newest number heard.
    pub seq: u32,
    /// How long ago it was last heard.
    pub seen: Millis,
    /// The best neighbour to it, where there is a route.
    pub next: Option<Mac>,
    /// That neighbour's metric, 0 without a route.
    pub metric: u32,
}

/// A neighbour as a node knows it.
#[derive(Clone, Copy, Debug, PartialEq, Eq)]
pub enum LinkRow {
    /// Under algorithm IV: how many of its numbers were received, and how many own ones came back.
    Iv { neigh: Mac, rq: u32, eq: u32 },
    /// Under algorithm V: the throughput to it, and how long ago its last ELP came.
    V { neigh: Mac, tp: u32, seen: Millis },
}
