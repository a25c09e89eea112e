use mesh_base::Mac;

/// The header of a packet: one variant for each kind, its fields in the order in which they stand
/// after the type byte and the version byte.
///
/// The layouts are those of `batadv_packet.h` at compat version 15 (Linux, Open-Mesh). Numbers are
/// big-endian. The length of the containers after a header isn't kept here: it is the length of the
/// packet's tail.
#[derive(Clone, Copy, Debug, PartialEq, Eq)]
pub enum Head {
    /// An originator message of algorithm IV (`batadv_ogm_packet`, type 0x00): 24 bytes, then
    /// containers.
    IvOgm {
        /// Time to live, 1 byte: how many hops are left.
        ttl: u8,
        /// 1 byte: NOT_BEST_NEXT_HOP bit 0, PRIMARIES_FIRST_HOP bit 1, DIRECTLINK bit 2.
        flags: u8,
        /// The originator's number of this message, 4 bytes.
        seq: u32,
        /// The originator, 6 bytes.
        orig: Mac,
        /// The previous sender, 6 bytes.
        prev: Mac,
        /// Transmit quality, 1 byte after a reserved one, in parts of 255.
        tq: u8,
    },
    /// A broadcast (`batadv_bcast_packet`, type 0x01): 14 bytes, then the frame.
    Bcast {
        /// Time to live, 1 byte, before a reserved one.
        ttl: u8,
        /// The originator's number of this broadcast, 4 bytes.
        seq: u32,
        /// The originator, 6 bytes.
        orig: Mac,
    },
    /// A message of the echo location protocol (`batadv_elp_packet`, type 0x03): 16 bytes, no tail.
    Elp {
        /// The originator, 6 bytes.
        orig: Mac,
        /// The originator's number of this message, 4 bytes.
        seq: u32,
        /// The time between two such messages, 4 bytes, in milliseconds.
        interval: u32,
    },
    /// An originator message of algorithm V (`batadv_ogm2_packet`, type 0x04): 20 bytes, then
    /// containers.
    Ogm2 {
        /// Time to live, 1 byte: how many hops are left.
        ttl: u8,
        /// 1 byte; no flag is in use.
        flags: u8,
        /// The originator's number of this message, 4 bytes.
        seq: u32,
        /// The originator, 6 bytes.
        orig: Mac,
        /// The path's throughput, 4 bytes behind the length of the containers, in 100 kbit/s.
        throughput: u32,
    },
    /// A frame for one node (`batadv_unicast_packet`, type 0x40): 10 bytes, then the frame.
    Unicast {
        /// Time to live, 1 byte: how many hops are left.
        ttl: u8,
        /// The version of the receiver's translation table by which the frame was sent, 1 byte.
        ttvn: u8,
        /// The receiver, 6 bytes.
        dst: Mac,
    },
    /// A fragment of a packet (`batadv_frag_packet`, type 0x41): 20 bytes, then the fragment.
    Frag {
        /// Time to live, 1 byte: how many hops are left.
        ttl: u8,
        /// The fragment's place in the packet, 0 to 15: the upper four bits of a byte.
        number: u8,
        /// The packet's priority, 0 to 7: bits 1 to 3 of that byte, whose bit 0 is reserved.
        priority: u8,
        /// The receiver, 6 bytes.
        dst: Mac,
        /// The originator, 6 bytes.
        orig: Mac,
        /// The originator's number of the cut packet, 2 bytes.
        seq: u16,
        /// The length of the packet that was cut, 2 bytes, in bytes.
        total: u16,
    },
    /// A frame for one node with its sender (`batadv_unicast_4addr_packet`, type 0x42): 18 bytes,
    /// then the frame.
    Unicast4 {
        /// Time to live, 1 byte: how many hops are left.
        ttl: u8,
        /// The version of the receiver's translation table by which the frame was sent, 1 byte.
        ttvn: u8,
        /// The receiver, 6 bytes.
        dst: Mac,
        /// The sender, 6 bytes.
        src: Mac,
        /// What the frame is, 1 byte before a reserved one: data 1, DHT get 2, DHT put 3, cache
        /// reply 4.
        subtype: u8,
    },
    /// A message of ping or traceroute (`batadv_icmp_packet`, type 0x43): 20 bytes and no tail.
    Icmp {
        /// Time to live, 1 byte: how many hops are left.
        ttl: u8,
        /// The message type, 1 byte: echo reply 0, unreachable 3, echo request 8, ttl exceeded 11.
        msg: u8,
        /// The receiver, 6 bytes.
        dst: Mac,
        /// The originator, 6 bytes.
        orig: Mac,
        /// The session that asked, 1 byte before a reserved one.
        uid: u8,
        /// The number of the echo request, 2 bytes.
        seq: u16,
    },
    /// Containers for one node (`batadv_unicast_tvlv_packet`, type 0x44): 20 bytes, then the
    /// containers.
    Utvlv {
        /// Time to live, 1 byte before a reserved one: how many hops are left.
        ttl: u8,
        /// The receiver, 6 bytes.
        dst: Mac,
        /// The sender, 6 bytes; behind it the length of the containers and 2 reserved bytes.
        src: Mac,
    },
}
