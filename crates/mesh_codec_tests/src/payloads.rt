use mesh_base::{Mac, Vid};
use mesh_codec::{ClientFrame, read_client_frame, write_client_frame};
use std::test::Fail;

/// A client frame in the VLAN 4094, and its bytes: two addresses, the tag, an ethertype, the text.
const TAGGED: ClientFrame<'static> = ClientFrame {
    dst: Mac([2, 0, 0, 0, 1, 1]),
    src: Mac([2, 0, 0, 0, 1, 2]),
    vid: Vid(0x8ffe),
    text: b"hi",
};

const TAGGED_BYTES: [u8; 20] = [
    2, 0, 0, 0, 1, 1, 2, 0, 0, 0, 1, 2, 0x81, 0, 0x0f, 0xfe, 0x88, 0xb5, b'h', b'i',
];

#[test]
fn a_tagged_client_frame_goes_both_ways(rt: HostRuntime) -> Result<(), Fail> {
    assert_eq!(rt; read_client_frame(&TAGGED_BYTES), Some(TAGGED));
    let mut out = Vec::new(rt.alloc());
    write_client_frame(&mut out, &TAGGED)?;
    assert_eq!(rt; out.as_slice(), TAGGED_BYTES.as_slice());
    Ok(())
}
