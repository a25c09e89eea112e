use crate::name_list::NameList;
use mesh_base::{Bytes, Key, Mac, Millis, Vid};

/// A line of a scenario as it was read, with its words as plain values.
#[derive(Debug, Drop)]
pub enum Command {
    /// A line without words, or a comment.
    Nothing,
    /// `algo iv` or `algo v`: the algorithm of all nodes.
    Algo(Algorithm),
    /// `node NAME MAC`: a node with this unicast address.
    Node {
        name: Bytes,
        mac: Mac,
    },
    /// `link A B`, with options: a directed link. Its delay is 1 to 10,000 ms, its pattern 1 to 64
    /// of the marks `.`, `x`, `2` and `h`, and its throughput 1 to 1,000,000 in units of 100
    /// kbit/s.
    Link {
        from: Bytes,
        to: Bytes,
        delay: Millis,
        pattern: Bytes,
        throughput: u32,
    },
    /// `lan NAME NODE..`: a LAN with these 1 to 16 nodes as its gateways.
    Lan {
        name: Bytes,
        gateways: NameList,
    },
    /// `frame PLACE SRC DST VID TEXT`: a client frame at a node or on a LAN. The source is unicast,
    /// the destination isn't zero.
    Frame {
        place: Bytes,
        src: Mac,
        dst: Mac,
        vid: Vid,
        text: Bytes,
    },
    /// `gone PLACE MAC VID`: a client with this unicast address leaves a node, or each gateway of a
    /// LAN.
    Gone {
        place: Bytes,
        key: Key,
    },
    /// `join NODE GROUP VID`: a group, other than all stations, is joined.
    Join {
        node: Bytes,
        key: Key,
    },
    /// `leave NODE GROUP VID`: a group is left.
    Leave {
        node: Bytes,
        key: Key,
    },
    /// `arp NODE MAC IP1 IP2 VID`: a client with this unicast address and the IP address `own_ip`
    /// asks for `asked_ip`.
    Arp {
        node: Bytes,
        mac: Mac,
        own_ip: u32,
        asked_ip: u32,
        vid: Vid,
    },
    /// `dhcp NODE MAC VID TEXT`: a call for a gateway by a client with this unicast address.
    Dhcp {
        node: Bytes,
        key: Key,
        text: Bytes,
    },
    /// `set NODE wifi on`, or `off`: how later sightings are marked.
    Wifi {
        node: Bytes,
        on: bool,
    },
    /// `set NODE gw off`: the node is no gateway and chooses none.
    GwOff {
        node: Bytes,
    },
    /// `set NODE gw server DOWN UP`: the node is a gateway, with its throughputs in units of 100
    /// kbit/s.
    GwServer {
        node: Bytes,
        down: u32,
        up: u32,
    },
    /// `set NODE gw client ..`: the node chooses gateways by this policy.
    GwClient {
        node: Bytes,
        policy: Policy,
    },
    /// `set NODE mcast N`: the multicast flags, 0 to 7.
    Mcast {
        node: Bytes,
        flags: u8,
    },
    /// `set NODE dat on`, or `off`: whether the node takes part in the distributed ARP table.
    Dat {
        node: Bytes,
        on: bool,
    },
    /// `set NODE frag N`: packets for one node go whole up to N bytes, 300 to 65,535, and all do
    /// where N is 0.
    Frag {
        node: Bytes,
        longest: u16,
    },
    /// `set NODE vis on`, or `off`: whether the node puts its picture in the fact store.
    Vis {
        node: Bytes,
        on: bool,
    },
    /// `alfred NODE mode M`: the node's part in the fact store.
    Alfred {
        node: Bytes,
        mode: AlfredMode,
    },
    /// `alfred NODE put TYPE VERSION TEXT`: a fact of a type 64 to 255, with at most 1,000 bytes.
    Put {
        node: Bytes,
        type_no: u8,
        version: u8,
        text: Bytes,
    },
    /// `alfred NODE get TYPE`: the facts of a type 64 to 255 are asked for.
    Get {
        node: Bytes,
        type_no: u8,
    },
    /// `ping NODE NODE`
    Ping {
        node: Bytes,
        target: Bytes,
    },
    /// `traceroute NODE NODE`
    Trace {
        node: Bytes,
        target: Bytes,
    },
    /// `reboot NODE`: the node loses all that it learned.
    Reboot {
        node: Bytes,
    },
    /// `run MS`: 1 to 2^40 milliseconds pass.
    Run {
        time: Millis,
    },
    /// `deliver N`: the link frame of this number is delivered again. `u64::MAX` stands for all
    /// numbers from there on.
    Deliver {
        number: u64,
    },
    /// `show NODE T`: a table of the node.
    Show {
        node: Bytes,
        table: Table,
    },
    /// `decode HEX`: the packets in these bytes, at least one.
    Decode {
        bytes: Bytes,
    },
}

/// The routing algorithms of B.A.T.M.A.N. advanced.
#[derive(Clone, Copy, Debug, PartialEq, Eq)]
pub enum Algorithm {
    /// B.A.T.M.A.N. IV: quality counted by originator messages.
    Iv,
    /// B.A.T.M.A.N. V: throughput measured per link.
    V,
}

/// How a client chooses its gateway.
#[derive(Clone, Copy, Debug, PartialEq, Eq)]
pub enum Policy {
    /// The gateway with the greatest metric.
    Best,
    /// The old choice as long as it stands.
    Stable,
    /// The old choice until another's metric is greater by this much, 1 to 255.
    Late(u32),
}

/// A node's part in the fact store, after alfred(8).
#[derive(Clone, Copy, Debug, PartialEq, Eq)]
pub enum AlfredMode {
    Off,
    Primary,
    Secondary,
}

/// The tables that `show` prints, named after those of batctl(8) and alfred(8).
#[derive(Clone, Copy, Debug, PartialEq, Eq)]
pub enum Table {
    /// `o`: the originators (`batctl originators`).
    Originators,
    /// `n`: the neighbours (`batctl neighbors`).
    Neighbors,
    /// `tl`: the node's local clients (`batctl translocal`).
    Locals,
    /// `tg`: the clients of the other nodes (`batctl transglobal`).
    Globals,
    /// `cl`: the claims of bridge loop avoidance (`batctl claimtable`).
    Claims,
    /// `gw`: the gateways (`batctl gwl`).
    Gateways,
    /// `mc`: the multicast groups and flags (`batctl mcast_flags`).
    Groups,
    /// `dat`: the cache of the distributed ARP table (`batctl dat_cache`).
    Addresses,
    /// `alf`: the facts of alfred.
    Facts,
    /// `vis`: the network as its nodes picture it (`batadv-vis`).
    Pictures,
}
