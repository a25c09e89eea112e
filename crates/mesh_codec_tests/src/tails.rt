use mesh_base::Mac;
use mesh_codec::{CodecErr, Head, encode, encode_head};
use std::test::Fail;

const A: Mac = Mac([2, 0, 0, 0, 0, 0x0a]);

const B: Mac = Mac([2, 0, 0, 0, 0, 0x0b]);

/// The header of an originator message that Linux sent, with 36 bytes of containers behind it.
const HEADER: [u8; 24] = [
    0, 15, 50, 0, 0xd6, 0x3d, 0x70, 0x2d, 2, 0, 0, 0, 0, 10, 2, 0, 0, 0, 0, 10, 0, 255, 0, 36,
];

#[test]
fn a_header_tells_the_length_of_its_tail(rt: HostRuntime) -> Result<(), Fail> {
    let mut out = Vec::new(rt.alloc());
    let head = Head::IvOgm {
        ttl: 50,
        flags: 0,
        seq: 0xd63d_702d,
        orig: A,
        prev: A,
        tq: 255,
    };
    assert_eq!(rt; encode_head(&mut out, &head, 36), Ok(()));
    assert_eq!(rt; out.as_slice(), HEADER.as_slice());
    Ok(())
}

#[test]
fn a_tail_that_a_header_cannot_have_is_refused(rt: HostRuntime) -> Result<(), Fail> {
    let mut out = vec![in rt.alloc(); 7u8]?;
    let long = vec![in rt.alloc(); 0u8; 65_536]?;
    let head = Head::Utvlv {
        ttl: 50,
        dst: B,
        src: A,
    };
    assert_eq!(rt;
        encode(&mut out, &head, &long),
        Err(CodecErr::Long { len: 65_536 })
    );
    let head = Head::Elp {
        orig: A,
        seq: 9,
        interval: 500,
    };
    assert_eq!(rt;
        encode(&mut out, &head, &[0]),
        Err(CodecErr::Tail { len: 1 })
    );
    assert_eq!(rt; out.as_slice(), [7].as_slice());
    Ok(())
}
