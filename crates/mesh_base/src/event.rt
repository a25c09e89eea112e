use crate::address::Mac;
use crate::byte_list::Bytes;
use crate::client::{Millis, Vid};
use crate::items::Items;

/// Why a frame for a client goes to the node that it goes to.
#[derive(Clone, Copy, Debug, PartialEq, Eq)]
pub enum Reason {
    /// `roam`: a mark says that the client moved there.
    Roam,
    /// `table`: the node's table names the client, and agrees with what the node announced.
    Table,
    /// `old`: the node's table names the client, and doesn't agree with what the node announced.
    Old,
    /// `gw`: the node is the chosen gateway.
    Gw,
    /// `mc`: the node receives the group.
    Mc,
    /// `alfred`: a message of the fact store.
    Alfred,
    /// `fwd`: the frame is passed on.
    Fwd,
}

/// Why a client frame is lost.
#[derive(Clone, Copy, Debug, PartialEq, Eq)]
pub enum LossReason {
    /// `unknown`: no node is known to have the client.
    Unknown,
    /// `ttl`: no hop is left.
    Ttl,
    /// `noroute`: no neighbour leads there.
    NoRoute,
}

/// What came of a ping.
#[derive(Clone, Copy, Debug, PartialEq, Eq)]
pub enum PingResult {
    /// `noroute`: no neighbour leads to the target.
    NoRoute,
    /// `reply ttl=T rtt=R`: the target answered, by a message that came with this ttl, so many
    /// milliseconds after the ping.
    Reply { ttl: u8, rtt: Millis },
    /// `unreachable from=X`: a node on the way has no route to the target.
    Unreachable { from: Mac },
    /// `exceeded from=X`: no hop was left at a node on the way.
    Exceeded { from: Mac },
}

/// What came of a probe of a traceroute.
#[derive(Clone, Copy, Debug, PartialEq, Eq)]
pub enum TraceResult {
    /// `noroute`: no neighbour leads to the target.
    NoRoute,
    /// `hop=H X rtt=R`: the probe's hops ended at a node on the way, which answered so many
    /// milliseconds after the probe.
    Passed { hop: u8, from: Mac, rtt: Millis },
    /// `hop=H X rtt=R end`: the target answered.
    Ended { hop: u8, from: Mac, rtt: Millis },
    /// `hop=H X unreachable`: a node on the way has no route to the target.
    Unreachable { hop: u8, from: Mac },
}

/// What came of a question for an IP address.
#[derive(Clone, Copy, Debug, PartialEq, Eq)]
pub enum ArpResult {
    /// `off`: the node takes no part in the ARP table.
    Off,
    /// `none`: the node doesn't know the address, and no other node is asked.
    Unknown,
    /// `is MAC cache`: the node knows the address.
    Cached { mac: Mac },
    /// `is MAC dht`: a node that was asked answered.
    Found { mac: Mac },
}

/// What came of a question for the facts of a type.
#[derive(Debug, Drop)]
pub enum FactResult {
    /// `off`: the node has no part in the fact store.
    Off,
    /// `noprimary`: a secondary knows no primary.
    NoPrimary,
    /// `empty`: there are none.
    Empty,
    /// `MAC VERSION TEXT`: a fact with its source.
    Fact {
        source: Mac,
        version: u8,
        text: Bytes,
    },
}

/// Events, in the order in which they happened.
pub type Events = Items<Event>;

/// What happens in a run and has a line of its own. Nodes are named by their addresses, LANs by
/// their numbers, from 1.
#[derive(Debug, Drop)]
pub enum Event {
    /// `fN T A>B KIND HEX`: a link frame is sent. A reason stands exactly with a packet of kind
    /// unicast.
    FrameSent {
        number: u32,
        moment: Millis,
        from: Mac,
        to: Mac,
        reason: Option<Reason>,
        bytes: Bytes,
    },
    /// `recv T NODE VID SRC DST TEXT`: a client frame reaches the clients of a node.
    Received {
        moment: Millis,
        node: Mac,
        vid: Vid,
        src: Mac,
        dst: Mac,
        text: Bytes,
    },
    /// `lN T LAN KIND HEX`: a frame is put on a LAN.
    LanSent {
        number: u32,
        moment: Millis,
        lan: u32,
        bytes: Bytes,
    },
    /// `recv T LAN VID SRC DST TEXT`: a client frame that a gateway put on a LAN reaches it.
    Bridged {
        moment: Millis,
        lan: u32,
        vid: Vid,
        src: Mac,
        dst: Mac,
        text: Bytes,
    },
    /// `lost T NODE VID SRC DST R`: a client frame is lost at a node.
    Lost {
        moment: Millis,
        node: Mac,
        vid: Vid,
        src: Mac,
        dst: Mac,
        reason: LossReason,
    },
    /// `alias NODE K J`: commit K of a node differs from commit J, under the same version and
    /// checksums.
    Alias {
        node: Mac,
        commit: u64,
        earlier: u64,
    },
    /// `ping A B seq=S RESULT`: what came of a node's ping under a number.
    Pinged {
        node: Mac,
        target: Mac,
        seq: u16,
        result: PingResult,
    },
    /// `trace A B RESULT`: what came of a probe of a node's traceroute.
    Traced {
        node: Mac,
        target: Mac,
        result: TraceResult,
    },
    /// `arp NODE IP RESULT`: what came of a client's question for an IP address, as a number.
    Arp {
        node: Mac,
        ip: u32,
        result: ArpResult,
    },
    /// `alfred NODE get TYPE RESULT`: what came of a question for the facts of a type.
    Alfred {
        node: Mac,
        type_no: u8,
        result: FactResult,
    },
    /// `route T NODE ORIG NEXT`: the next node on the way from a node to an originator has changed,
    /// or there is none any more.
    Route {
        at: Millis,
        node: Mac,
        orig: Mac,
        next: Option<Mac>,
    },
}
