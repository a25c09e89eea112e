use mesh_base::Mac;
use mesh_messages::{
    CameFact, FactMessage, FactRef, end_bytes, primary_bytes, read_fact_message, request_bytes,
};
use std::test::Fail;

pub(crate) const A: Mac = Mac([2, 0, 0, 0, 0, 10]);

pub(crate) const B: Mac = Mac([2, 0, 0, 0, 0, 11]);

/// A tells all stations that it is a primary.
pub(crate) const ANNOUNCEMENT: [u8; 18] = [
    0xff, 0xff, 0xff, 0xff, 0xff, 0xff, 2, 0, 0, 0, 0, 10, 0x42, 0x42, // addresses and type
    1, 0, 0, 0, // kind, version, length
];

/// B asks A for the facts of type 65, by the id 258.
pub(crate) const REQUEST: [u8; 21] = [
    2, 0, 0, 0, 0, 10, 2, 0, 0, 0, 0, 11, 0x42, 0x42, // addresses and type
    2, 0, 0, 3, // kind, version, length
    1, 2, 65, // id, type
];

/// A pushes to B two facts in part 3 of the transaction of the id 7: "hi" and no bytes.
pub(crate) const PUSH: [u8; 44] = [
    2, 0, 0, 0, 0, 11, 2, 0, 0, 0, 0, 10, 0x42, 0x42, // addresses and type
    0, 0, 0, 26, // kind, version, length
    0, 7, 0, 3, // id, number
    2, 0, 0, 0, 0, 10, 64, 1, 0, 2, b'h', b'i', // source, type, version, length, bytes
    2, 0, 0, 0, 0, 11, 255, 0, 0, 0,
];

/// The first of these facts.
const HI: FactRef<'static> = FactRef {
    source: A,
    type_no: 64,
    version: 1,
    bytes: b"hi",
};

/// The end of an answer of A to B by the id 258, without parts.
pub(crate) const END: [u8; 22] = [
    2, 0, 0, 0, 0, 11, 2, 0, 0, 0, 0, 10, 0x42, 0x42, // addresses and type
    5, 0, 0, 4, // kind, version, length
    1, 2, 0, 0, // id, count
];

#[test]
fn an_announcement_goes_both_ways(rt: HostRuntime) -> Result<(), Fail> {
    let bytes = primary_bytes(Mac::BROADCAST, A);
    assert_eq!(rt; bytes.as_slice(), ANNOUNCEMENT.as_slice());
    match read_fact_message(&ANNOUNCEMENT) {
        Some(
            CameFact {
                sender,
                message: FactMessage::Primary,
            },
        ) => assert_eq!(rt; sender, A),
        _ => panic!(rt; "no announcement"),
    }
    Ok(())
}

#[test]
fn a_request_goes_both_ways(rt: HostRuntime) -> Result<(), Fail> {
    let bytes = request_bytes(A, B, 258, 65);
    assert_eq!(rt; bytes.as_slice(), REQUEST.as_slice());
    match read_fact_message(&REQUEST) {
        Some(
            CameFact {
                sender,
                message: FactMessage::Request { id, type_no },
            },
        ) => assert_eq!(rt; (sender, id, type_no), (B, 258, 65)),
        _ => panic!(rt; "no request"),
    }
    Ok(())
}

#[test]
fn an_end_goes_both_ways(rt: HostRuntime) -> Result<(), Fail> {
    let bytes = end_bytes(B, A, false, 258, 0);
    assert_eq!(rt; bytes.as_slice(), END.as_slice());
    match read_fact_message(&END) {
        Some(
            CameFact {
                sender,
                message: FactMessage::End { push, id, count },
            },
        ) => assert_eq!(rt; (sender, push, id, count), (A, false, 258, 0)),
        _ => panic!(rt; "no end"),
    }
    Ok(())
}

#[test]
fn a_pushed_end_and_an_answering_part_are_told_apart(rt: HostRuntime) -> Result<(), Fail> {
    let bytes = end_bytes(B, A, true, 258, 0);
    let mut pushed = END;
    pushed[14] = 3;
    assert_eq!(rt; bytes.as_slice(), pushed.as_slice());
    let mut answer = PUSH;
    answer[14] = 4;
    match read_fact_message(&answer) {
        Some(
            CameFact {
                message: FactMessage::Part { push, .. },
                ..
            },
        ) => assert!(rt; !push),
        _ => panic!(rt; "no part"),
    }
    Ok(())
}

#[test]
fn the_facts_of_a_part_are_walked(rt: HostRuntime) -> Result<(), Fail> {
    let Some(
        CameFact {
            sender,
            message: FactMessage::Part {
                push,
                id,
                number,
                mut facts,
            },
        },
    ) = read_fact_message(&PUSH)
    else {
        panic!(rt; "no part");
    };
    assert_eq!(rt; (sender, push, id, number), (A, true, 7, 3));
    assert_eq!(rt; facts.next(), Some(HI));
    let empty = FactRef {
        source: B,
        type_no: 255,
        version: 0,
        bytes: b"",
    };
    assert_eq!(rt; facts.next(), Some(empty));
    assert_eq!(rt; facts.next(), None);
    Ok(())
}

#[test]
fn a_fact_of_a_part_is_copied(rt: HostRuntime) -> Result<(), Fail> {
    let own = HI.to_fact(rt.alloc())?;
    assert_eq!(rt; (own.source, own.type_no, own.version), (A, 64, 1));
    assert_eq!(rt; own.bytes.as_slice(), b"hi".as_slice());
    Ok(())
}
