use mesh_base::{Key, Mac, Vid};
use mesh_codec::{LanMessage, announce_bytes, claim_bytes, read_lan};
use std::test::Fail;

/// A gateway's claim of a client in VLAN 7 on LAN 1, as a run prints it.
const CLAIM: [u8; 22] = [
    0xff, 0x43, 0x05, 0, 0, 1, 2, 0, 0, 0, 0, 11, 0x88, 0xb6, 2, 0, 0, 0, 1, 4, 0x80, 7,
];

/// Its announcement that it holds no claims.
const ANNOUNCEMENT: [u8; 18] = [
    0xff, 0x43, 0x05, 2, 0, 1, 2, 0, 0, 0, 0, 11, 0x88, 0xb6, 0, 0, 0, 0,
];

#[test]
fn a_claim_goes_both_ways(rt: HostRuntime) -> Result<(), Fail> {
    let sender = Mac([2, 0, 0, 0, 0, 11]);
    let key = Key {
        mac: Mac([2, 0, 0, 0, 1, 4]),
        vid: Vid(0x8007),
    };
    assert_eq!(rt; claim_bytes(true, 1, sender, key), CLAIM);
    let told = LanMessage::Claims {
        claim: true,
        sender,
        key,
    };
    assert_eq!(rt; read_lan(&CLAIM), told);
    assert_eq!(rt; announce_bytes(1, sender, 0), ANNOUNCEMENT);
    assert_eq!(rt; read_lan(&ANNOUNCEMENT), LanMessage::Nothing);
    Ok(())
}
