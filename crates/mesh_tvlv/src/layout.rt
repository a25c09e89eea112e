//! The numbers of the layouts: types and versions of containers, flags, sizes and offsets.

/// The type of a gateway's container, which tells its bandwidth (`BATADV_TVLV_GW`).
pub const GATEWAY: u8 = 1;
/// The type of the container of the distributed ARP table, whose body is empty (`BATADV_TVLV_DAT`).
pub const DAT: u8 = 2;
/// The type of the container of a translation table (`BATADV_TVLV_TT`).
pub const TT: u8 = 4;
/// The type of a roaming advertisement (`BATADV_TVLV_ROAM`).
pub const ROAMING: u8 = 5;
/// The type of the container of multicast flags (`BATADV_TVLV_MCAST`).
pub const MULTICAST: u8 = 6;

/// The version that the containers are written with, but for multicast and parts of a translation
/// table.
pub const VERSION: u8 = 1;
/// The version that a container with a part of a translation table is written with.
pub const TT_PART_VERSION: u8 = 2;
/// The version that a multicast container is written with.
pub const MULTICAST_VERSION: u8 = 2;

/// The flag of a translation table that comes with an OGM (`BATADV_TT_OGM_DIFF`).
pub const OGM_DIFF: u8 = 0x01;
/// The flag of a request for a translation table (`BATADV_TT_REQUEST`).
pub const REQUEST: u8 = 0x02;
/// The flag of an answer to a request (`BATADV_TT_RESPONSE`).
pub const RESPONSE: u8 = 0x04;
/// The flag of a whole translation table, asked for or given (`BATADV_TT_FULL_TABLE`).
pub const FULL_TABLE: u8 = 0x10;

/// The flag of a record that takes its client away (`BATADV_TT_CLIENT_DEL`).
pub const DEL: u8 = 0x01;
/// The flag of a record whose client has roamed (`BATADV_TT_CLIENT_ROAM`); written 0 and ignored.
pub const ROAM: u8 = 0x02;
/// The flag of a client on a wireless device (`BATADV_TT_CLIENT_WIFI`).
pub const WIFI: u8 = 0x10;
/// The flag of an isolated client (`BATADV_TT_CLIENT_ISOLA`).
pub const ISOLATED: u8 = 0x20;
/// The flags that a client keeps.
pub(crate) const CLIENT_FLAGS: u8 = WIFI | ISOLATED;

/// The bytes of a container before its body: type 1, version 1, length 2.
pub const HEADER_SIZE: usize = 4;
/// The offset of the length in a container.
pub(crate) const LENGTH_OFFSET: usize = 2;

/// The bytes of a translation table before its VLANs: flags 1, version 1, number of VLANs 2.
pub const TT_HEAD_SIZE: usize = 4;
/// The offset of the number of VLANs in a translation table.
pub(crate) const VLANS_OFFSET: usize = 2;
/// The bytes of a part of a translation table before its VLANs: those of a table, then number 2,
/// count 2.
pub(crate) const TT_PART_HEAD_SIZE: usize = 8;
/// The offset of the number in a part of a translation table.
pub(crate) const PART_NUMBER_OFFSET: usize = 4;
/// The offset of the count in a part of a translation table.
pub(crate) const PART_COUNT_OFFSET: usize = 6;
/// The bytes of a VLAN: checksum 4, wire number 2, reserved 2.
pub const VLAN_SIZE: usize = 8;
/// The offset of the wire number in a VLAN.
pub(crate) const VLAN_VID_OFFSET: usize = 4;
/// The bytes of a record: flags 1, reserved 3, client 8.
pub const CHANGE_SIZE: usize = 12;
/// The offset of the client in a record.
pub(crate) const CHANGE_KEY_OFFSET: usize = 4;

/// The bytes of a client: address 6, wire number of its VLAN 2.
pub const KEY_SIZE: usize = 8;
/// The offset of the wire number in a client.
pub(crate) const KEY_VID_OFFSET: usize = 6;

/// The least body of a gateway: download 4, upload 4.
pub const GATEWAY_SIZE: usize = 8;
/// The offset of the upload in a gateway's body.
pub(crate) const UPLOAD_OFFSET: usize = 4;
/// The least body of multicast flags: flags 1, reserved 3.
pub const MULTICAST_SIZE: usize = 4;
