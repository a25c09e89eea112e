use mesh_base::{Bytes, Items, Mac, Millis, Vid};

/// A list of facts.
pub type FactList = Items<Fact>;

/// A gateway as a node knows it: its throughputs in units of 100 kbit/s, and the metric of the
/// route to it.
#[derive(Clone, Copy, Debug, PartialEq, Eq)]
pub struct GwRow {
    pub orig: Mac,
    pub down: u32,
    pub up: u32,
    pub metric: u32,
}

/// A node's part as a gateway: none; it offers throughputs; or its clients choose one.
#[derive(Clone, Copy, Debug, PartialEq, Eq)]
pub enum GwMode {
    Off,
    Server,
    Client,
}

/// An originator that tells multicast flags, and these.
#[derive(Clone, Copy, Debug, PartialEq, Eq)]
pub struct GroupRow {
    pub orig: Mac,
    pub flags: u8,
}

/// How a frame to a group is sent to so many receivers.
#[derive(Clone, Copy, Debug, PartialEq, Eq)]
pub enum Fan {
    /// There is none.
    Nobody,
    /// To each of them.
    Each,
    /// To all stations.
    Flood,
}

/// A pair of the distributed ARP table: an IP address, as a number, and a VLAN. Pairs are ordered
/// by the IP address, then by the wire number.
#[derive(Clone, Copy, Debug, PartialEq, Eq, PartialOrd, Ord, Hash)]
pub struct Pair {
    pub ip: u32,
    pub vid: Vid,
}

/// A row of the distributed ARP table: a pair, the address that it has, and how long ago that was
/// learned.
#[derive(Clone, Copy, Debug, PartialEq, Eq)]
pub struct ArpRow {
    pub ip: u32,
    pub vid: Vid,
    pub mac: Mac,
    pub age: Millis,
}

/// A primary as a node knows it: when it announced itself last, and the metric of the route to it.
#[derive(Clone, Copy, Debug, PartialEq, Eq)]
pub struct PrimaryRow {
    pub orig: Mac,
    pub announced: Millis,
    pub metric: u32,
}

/// A fact of the fact store.
#[derive(Debug, Drop)]
pub struct Fact {
    pub source: Mac,
    pub type_no: u8,
    pub version: u8,
    pub bytes: Bytes,
}

/// How a node came by a fact.
#[derive(Clone, Copy, Debug, PartialEq, Eq)]
pub enum Mark {
    /// It was put here.
    Local,
    /// Its source sent it.
    First,
    /// Another node sent it.
    Synced,
}

/// A fact as it is kept: since when, and how the node came by it.
#[derive(Debug, Drop)]
pub struct KeptFact {
    pub moment: Millis,
    pub mark: Mark,
    pub fact: Fact,
}

/// The source and the type of a fact, which are one fact's. They are ordered by the source, then by
/// the type.
#[derive(Clone, Copy, Debug, PartialEq, Eq, PartialOrd, Ord, Hash)]
pub struct FactKey {
    pub source: Mac,
    pub type_no: u8,
}
