use crate::fact_messages::{A, B, PUSH};
use mesh_base::{Bytes, NoMemory};
use mesh_messages::{CameFact, FactMessage, Parts, part_count, read_fact_message, write_part};
use mesh_model::Fact;
use std::alloc::Global;
use std::test::Fail;

// A fact of A with these bytes.
fn fact(alloc: Global, bytes: &[u8]) -> Result<Fact, NoMemory> {
    Ok(Fact {
        source: A,
        type_no: 64,
        version: 1,
        bytes: Bytes::from_slice(alloc, bytes)?,
    })
}

#[test]
fn a_part_is_written_behind_what_is_there(rt: HostRuntime) -> Result<(), Fail> {
    let hi = fact(rt.alloc(), b"hi")?;
    let empty = Fact {
        source: B,
        type_no: 255,
        version: 0,
        bytes: Bytes::from_slice(rt.alloc(), b"")?,
    };
    let facts = [&hi, &empty];
    let mut parts = Parts::new(&facts);
    let Some(part) = parts.next() else {
        panic!(rt; "no part");
    };
    assert!(rt; parts.next().is_none());
    let mut out = Vec::from_slice(rt.alloc(), b"before")?;
    write_part(&mut out, B, A, true, 7, &part)?;
    // The same facts as in the given bytes, in the part 0.
    let mut expected = PUSH;
    expected[21] = 0;
    assert_eq!(rt; &out.as_slice()[..6], b"before".as_slice());
    assert_eq!(rt; &out.as_slice()[6..], expected.as_slice());
    Ok(())
}

// A fact of A with so many bytes.
fn fact_of(alloc: Global, size: usize) -> Result<Fact, NoMemory> {
    let bytes = vec![in alloc; 7u8; size]?;
    fact(alloc, bytes.as_slice())
}

#[test]
fn each_part_has_as_many_facts_as_fit(rt: HostRuntime) -> Result<(), Fail> {
    let mut own = Vec::new(rt.alloc());
    // Two that leave no room, two of which the second needs all of it, two that have none together,
    // and one that no part has room for.
    for size in [688, 688, 1, 1_386, 1_000, 377, 1_387, 1] {
        own.push(fact_of(rt.alloc(), size)?)?;
    }
    let mut facts: Vec<&Fact> = Vec::new(rt.alloc());
    for fact in &own {
        facts.push(fact)?;
    }
    let mut counts = Vec::new(rt.alloc());
    for part in Parts::new(facts.as_slice()) {
        counts.push((part.number, part.facts.len()))?;
    }
    let expected = [(0, 2), (1, 1), (2, 1), (3, 1), (4, 1)];
    assert_eq!(rt; counts.as_slice(), expected.as_slice());
    assert_eq!(rt; part_count(facts.as_slice()), 5);
    assert_eq!(rt; part_count(&[]), 0);
    Ok(())
}

#[test]
fn a_full_part_is_read_again(rt: HostRuntime) -> Result<(), Fail> {
    let full = fact_of(rt.alloc(), 1_386)?;
    let facts = [&full];
    let Some(part) = Parts::new(&facts).next() else {
        panic!(rt; "no part");
    };
    let mut out = Vec::new(rt.alloc());
    write_part(&mut out, B, A, false, 9, &part)?;
    let Some(
        CameFact {
            message: FactMessage::Part {
                push,
                id,
                mut facts,
                ..
            },
            ..
        },
    ) = read_fact_message(out.as_slice())
    else {
        panic!(rt; "no part");
    };
    assert_eq!(rt; (push, id), (false, 9));
    let Some(fact) = facts.next() else {
        panic!(rt; "no fact");
    };
    assert_eq!(rt; fact.bytes, full.bytes.as_slice());
    Ok(())
}
