use mesh_base::{Key, Mac, Vid};
use mesh_model::{AlfredMode, Policy};

/// What a node is given: a tick, a link frame, a frame of its LAN, or what a line of a scenario
/// gives it.
#[derive(Clone, Copy, Debug)]
pub enum Input<'a> {
    /// A tick, by its index from 1.
    Tick {
        index: u64,
    },
    /// A link frame from a neighbour, with the throughput of the link to it, or 0 without one.
    Link {
        from: Mac,
        tp: u32,
        bytes: &'a [u8],
    },
    /// A frame on the LAN of this node.
    Lan {
        bytes: &'a [u8],
    },
    /// This node becomes a gateway of the LAN of a number, which has these gateways.
    Attach {
        lan: u16,
        gateways: &'a [Mac],
    },
    /// A frame of a client at this node.
    Frame {
        src: Mac,
        dst: Mac,
        vid: Vid,
        text: &'a [u8],
    },
    /// A client departs from this node.
    Gone {
        key: Key,
    },
    /// A client of this node joins a group.
    Join {
        key: Key,
    },
    /// The last client of this node that was in a group leaves it.
    Leave {
        key: Key,
    },
    /// A client at this node, which has an IP address, asks for another one, both as numbers, in a
    /// VLAN.
    Arp {
        mac: Mac,
        own_ip: u32,
        asked_ip: u32,
        vid: Vid,
    },
    /// A call of a client at this node for a gateway.
    Dhcp {
        key: Key,
        text: &'a [u8],
    },
    /// Whether the clients that are sighted from now on are on a wireless device.
    Wifi(bool),
    /// This node is no gateway and chooses none.
    GwOff,
    /// This node is a gateway with these throughputs, in units of 100 kbit/s.
    GwServer {
        down: u32,
        up: u32,
    },
    /// This node chooses its gateways by this policy.
    GwClient(Policy),
    /// The multicast flags of this node, 0 to 7.
    Mcast(u8),
    /// Whether this node takes part in the distributed ARP table.
    Dat(bool),
    /// The greatest length of a packet for one node that goes whole, 0 where all do.
    Frag(u16),
    /// Whether this node puts its picture in the fact store.
    Vis(bool),
    /// The part of this node in the fact store.
    Alfred(AlfredMode),
    /// This node puts a fact of its own.
    Put {
        type_no: u8,
        version: u8,
        text: &'a [u8],
    },
    /// This node asks for the facts of a type.
    Get {
        type_no: u8,
    },
    /// A ping of this node to another one begins.
    Ping {
        target: Mac,
    },
    /// A traceroute of this node to another one begins.
    Trace {
        target: Mac,
    },
    /// This node reboots.
    Reboot,
}
