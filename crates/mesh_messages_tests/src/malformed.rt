use crate::fact_messages::{ANNOUNCEMENT, END, PUSH, REQUEST};
use mesh_messages::read_fact_message;
use std::alloc::{AllocError, Global};
use std::test::Fail;

/// One message of each kind of rest.
const MESSAGES: [&[u8]; 4] = [&ANNOUNCEMENT, &REQUEST, &PUSH, &END];

const TYPE: usize = 12;

const KIND: usize = 14;

const VERSION: usize = 15;
/// The lower byte of a message's length.
const LENGTH: usize = 17;

fn is_message(bytes: &[u8]) -> bool {
    read_fact_message(bytes).is_some()
}

// A message with so much added to the byte at a place.
fn changed(alloc: Global, message: &[u8], place: usize, added: u8) -> Result<Vec<u8>, AllocError> {
    let mut other = Vec::from_slice(alloc, message)?;
    if let Some(byte) = other.get_mut(place) {
        *byte = byte.wrapping_add(added);
    }
    Ok(other)
}

#[test]
fn a_message_that_is_cut_is_none(rt: HostRuntime) -> Result<(), Fail> {
    for message in MESSAGES {
        assert!(rt; is_message(message));
        for len in 0..message.len() {
            assert!(rt; !is_message(&message[..len]));
        }
    }
    Ok(())
}

#[test]
fn a_message_of_another_length_is_none(rt: HostRuntime) -> Result<(), Fail> {
    let alloc = rt.alloc();
    for message in MESSAGES {
        for added in 1..=255 {
            let other = changed(alloc, message, LENGTH, added)?;
            assert!(rt; !is_message(other.as_slice()));
        }
        // One byte more follows: not told, and told.
        for told in 0..=1 {
            let mut longer = changed(alloc, message, LENGTH, told)?;
            longer.push(0)?;
            assert!(rt; !is_message(longer.as_slice()));
        }
    }
    Ok(())
}

#[test]
fn a_message_of_another_type_or_version_is_none(rt: HostRuntime) -> Result<(), Fail> {
    let alloc = rt.alloc();
    for message in MESSAGES {
        let of_type = changed(alloc, message, TYPE, 1)?;
        assert!(rt; !is_message(of_type.as_slice()));
        let of_version = changed(alloc, message, VERSION, 1)?;
        assert!(rt; !is_message(of_version.as_slice()));
    }
    Ok(())
}

#[test]
fn a_message_of_the_kind_6_is_none(rt: HostRuntime) -> Result<(), Fail> {
    let alloc = rt.alloc();
    for message in MESSAGES {
        let Some(kind) = message.get(KIND) else {
            panic!(rt; "no kind");
        };
        let other = changed(alloc, message, KIND, 6u8.wrapping_sub(*kind))?;
        assert!(rt; !is_message(other.as_slice()));
    }
    Ok(())
}

#[test]
fn a_tagged_message_is_none(rt: HostRuntime) -> Result<(), Fail> {
    for message in MESSAGES {
        let (Some(addresses), Some(rest)) = (message.get(..TYPE), message.get(TYPE..)) else {
            panic!(rt; "no type");
        };
        for [high, low] in [[0, 0], [0, 7], [0x0f, 0xff]] {
            let mut tagged = Vec::from_slice(rt.alloc(), addresses)?;
            tagged.extend_from_slice(&[0x81, 0, high, low])?;
            tagged.extend_from_slice(rest)?;
            assert!(rt; !is_message(tagged.as_slice()));
        }
    }
    Ok(())
}

// A push of one fact with so many bytes.
fn push_of(alloc: Global, size: u16) -> Result<Vec<u8>, AllocError> {
    let [high, low] = size.wrapping_add(14).to_be_bytes();
    let mut push = Vec::from_slice(alloc, &PUSH[..KIND])?;
    push.extend_from_slice(&[0, 0, high, low, 0, 7, 0, 3])?;
    let [high, low] = size.to_be_bytes();
    push.extend_from_slice(&[2, 0, 0, 0, 0, 10, 64, 1, high, low])?;
    for _ in 0..size {
        push.push(9)?;
    }
    Ok(push)
}

#[test]
fn a_rest_has_at_most_1400_bytes(rt: HostRuntime) -> Result<(), Fail> {
    assert!(rt; is_message(push_of(rt.alloc(), 1_386)?.as_slice()));
    assert!(rt; !is_message(push_of(rt.alloc(), 1_387)?.as_slice()));
    Ok(())
}
