use alfred_core::{Fact, Facts, Mark};
use mesh_base::{Bytes, Mac, NoMemory};
use std::alloc::Global;
use std::test::Fail;

const A: Mac = Mac([2, 0, 0, 0, 0, 10]);

const B: Mac = Mac([2, 0, 0, 0, 0, 11]);

const C: Mac = Mac([2, 0, 0, 0, 0, 12]);

// Whether the fact at a place is of this source and type, and has these bytes.
fn is_at(facts: &Facts, now: u64, i: usize, source: Mac, type_no: u8, bytes: &[u8]) -> bool {
    match facts.fact_at(now, i) {
        Some(fact) => {
            fact.source == source && fact.type_no == type_no && fact.bytes.as_slice() == bytes
        }
        None => false,
    }
}

#[test]
fn a_fact_is_live_for_ten_minutes(rt: HostRuntime) -> Result<(), Fail> {
    let mut facts = Facts::new(rt.alloc(), B);
    facts.put(1_000, 70, 1, b"two")?;
    facts.put(2_000, 64, 1, b"one")?;
    assert_eq!(rt; is_at(&facts, 600_999, 0, B, 64, b"one"), true);
    assert_eq!(rt; is_at(&facts, 600_999, 1, B, 70, b"two"), true);
    assert_eq!(rt; facts.fact_at(601_000, 1).is_none(), true);
    assert_eq!(rt; facts.mark_at(601_000, 0), Some(Mark::Local));
    Ok(())
}

// A fact of A of type 64 with these bytes.
fn fact_of(alloc: Global, bytes: &[u8]) -> Result<Fact, NoMemory> {
    Ok(Fact {
        source: A,
        type_no: 64,
        version: 0,
        bytes: Bytes::from_slice(alloc, bytes)?,
    })
}

// Whether such a fact is kept that came from a sender.
fn keeps(
    alloc: Global,
    facts: &mut Facts,
    now: u64,
    sender: Mac,
    bytes: &[u8],
) -> Result<bool, NoMemory> {
    let fact = fact_of(alloc, bytes)?;
    facts.take(now, sender, &fact)
}

#[test]
fn a_first_fact_stands_against_a_synced_one(rt: HostRuntime) -> Result<(), Fail> {
    let mut facts = Facts::new(rt.alloc(), B);
    let alloc = rt.alloc();
    assert!(rt; keeps(alloc, &mut facts, 0, C, b"old")?);
    assert_eq!(rt; facts.mark_at(0, 0), Some(Mark::Synced));
    assert!(rt; keeps(alloc, &mut facts, 1, A, b"old")?);
    assert_eq!(rt; facts.mark_at(1, 0), Some(Mark::First));
    assert!(rt; !keeps(alloc, &mut facts, 600_000, C, b"new")?);
    assert!(rt; is_at(&facts, 600_000, 0, A, 64, b"old"));
    assert!(rt; keeps(alloc, &mut facts, 600_001, C, b"new")?);
    assert!(rt; is_at(&facts, 600_001, 0, A, 64, b"new"));
    Ok(())
}
