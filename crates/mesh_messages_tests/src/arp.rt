use mesh_base::{Mac, Vid};
use mesh_messages::{ARP_REPLY, ARP_REQUEST, ArpMessage, arp_bytes, read_arp};
use std::test::Fail;

const ASKING: Mac = Mac([2, 0, 0, 0, 1, 1]);

const ASKED: Mac = Mac([2, 0, 0, 0, 1, 2]);

/// 10.0.0.1 asks all stations for 10.0.0.2: the packet format of RFC 826 by its fields.
const REQUEST: [u8; 42] = [
    0xff, 0xff, 0xff, 0xff, 0xff, 0xff, // to all stations
    2, 0, 0, 0, 1, 1, // from the one that asks
    0x08, 0x06, // ADDRESS_RESOLUTION
    0, 1, // Ethernet
    8, 0, // IPv4
    6, 4, // the sizes of their addresses
    0, 1, // REQUEST
    2, 0, 0, 0, 1, 1, 10, 0, 0, 1, // the one that asks
    0, 0, 0, 0, 0, 0, 10, 0, 0, 2, // the one that is asked for
];

/// The answer in VLAN 7.
const TAGGED_REPLY: [u8; 46] = [
    2, 0, 0, 0, 1, 1, 2, 0, 0, 0, 1, 2, // addresses
    0x81, 0, 0, 7, 0x08, 0x06, // tag and type
    0, 1, 8, 0, 6, 4, 0, 2, // REPLY
    2, 0, 0, 0, 1, 2, 10, 0, 0, 2, // the one that answers
    2, 0, 0, 0, 1, 1, 10, 0, 0, 1, // the one that asked
];

#[test]
fn a_request_goes_both_ways(rt: HostRuntime) -> Result<(), Fail> {
    let request = ArpMessage {
        vid: Vid::UNTAGGED,
        operation: ARP_REQUEST,
        sender: ASKING,
        sender_ip: 0x0a00_0001,
        target: Mac::ZERO,
        target_ip: 0x0a00_0002,
    };
    assert_eq!(rt; read_arp(&REQUEST), Some(request));
    let bytes = arp_bytes(Mac::BROADCAST, ASKING, &request);
    assert_eq!(rt; bytes.as_slice(), REQUEST.as_slice());
    Ok(())
}

#[test]
fn a_tagged_reply_goes_both_ways(rt: HostRuntime) -> Result<(), Fail> {
    let reply = ArpMessage {
        vid: Vid(0x8007),
        operation: ARP_REPLY,
        sender: ASKED,
        sender_ip: 0x0a00_0002,
        target: ASKING,
        target_ip: 0x0a00_0001,
    };
    assert_eq!(rt; read_arp(&TAGGED_REPLY), Some(reply));
    let bytes = arp_bytes(ASKING, ASKED, &reply);
    assert_eq!(rt; bytes.as_slice(), TAGGED_REPLY.as_slice());
    Ok(())
}

#[test]
fn a_request_that_is_cut_is_none(rt: HostRuntime) -> Result<(), Fail> {
    for len in 0..REQUEST.len() {
        assert_eq!(rt; read_arp(&REQUEST[..len]), None);
    }
    for len in 0..TAGGED_REPLY.len() {
        assert_eq!(rt; read_arp(&TAGGED_REPLY[..len]), None);
    }
    Ok(())
}

#[test]
fn other_bytes_are_no_arp(rt: HostRuntime) -> Result<(), Fail> {
    let mut longer = [0; 43];
    longer[..42].copy_from_slice(&REQUEST);
    assert_eq!(rt; read_arp(&longer), None);
    // The type, Ethernet, IPv4, and the sizes of their addresses.
    for place in 12..20 {
        let mut other = REQUEST;
        other[place] ^= 2;
        assert_eq!(rt; read_arp(&other), None);
    }
    // The numbers 0 and 4,095 name no VLAN.
    for number in [0, 0x0fff] {
        let mut other = TAGGED_REPLY;
        other[14..16].copy_from_slice(&u16::to_be_bytes(number));
        assert_eq!(rt; read_arp(&other), None);
    }
    Ok(())
}
