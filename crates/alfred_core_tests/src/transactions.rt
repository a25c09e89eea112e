use Message::{End, Part};
use Told::{Open, Whole};
use alfred_core::{Fact, FactList, Transactions, Txn};
use mesh_base::{Bytes, Mac};
use std::test::Fail;

const B: Mac = Mac([2, 0, 0, 0, 0, 11]);

const C: Mac = Mac([2, 0, 0, 0, 0, 12]);

// A message of a sender's transaction 1: a part with facts of these types, or the end.
#[derive(Clone, Copy)]
enum Message<'a> {
    Part(u16, &'a [u8]),
    End(u16),
}

// What it is answered: so many parts came, and so many are wanted, or facts of these types.
#[derive(Clone, Copy)]
enum Told<'a> {
    Open(u32, Option<u16>),
    Whole(&'a [u8]),
}

// A message at a moment, with its sender and its answer.
#[derive(Clone, Copy)]
struct Row<'a>(u64, Mac, Message<'a>, Told<'a>);

// Facts of these types.
fn facts_of(rt: &HostRuntime, types: &[u8]) -> Result<FactList, Fail> {
    let mut facts = FactList::new(rt.alloc());
    for type_no in types {
        let bytes = Bytes::from_slice(rt.alloc(), b"hi")?;
        facts.push(Fact {
            source: B,
            type_no: *type_no,
            version: 1,
            bytes,
        })?;
    }
    Ok(facts)
}

// Whether these are facts of these types.
fn are_of(facts: &FactList, types: &[u8]) -> bool {
    let mut same = facts.len() == types.len();
    for (i, type_no) in types.iter().enumerate() {
        same = same && is_type_at(facts, i, *type_no);
    }
    same
}

// Whether the fact at a place is of this type.
fn is_type_at(facts: &FactList, i: usize, type_no: u8) -> bool {
    match facts.at(i) {
        Some(fact) => fact.type_no == type_no && fact.bytes.as_slice() == b"hi".as_slice(),
        None => false,
    }
}

// Whether this is the answer.
fn is_told(txn: &Txn, told: Told) -> bool {
    match (txn, told) {
        (Txn::Open { have, want }, Open(parts, count)) => *have == parts && *want == count,
        (Txn::Whole(facts), Whole(types)) => are_of(facts, types),
        (Txn::Open { .. }, Whole(_)) | (Txn::Whole(_), Open(..)) => false,
    }
}

// Sends a message, and tells whether it is answered as its row says.
fn is_answered(rt: &HostRuntime, open: &mut Transactions, row: &Row) -> Result<bool, Fail> {
    let Row(now, sender, message, told) = *row;
    let txn = match message {
        Part(number, types) => {
            let facts = facts_of(rt, types)?;
            open.part(now, sender, 1, number, &facts)?
        }
        End(count) => open.end(now, sender, 1, count)?,
    };
    Ok(is_told(&txn, told))
}

// Sends messages one after another, and tells which is the first that isn't answered as its row
// says, if one isn't.
fn first_wrong(rt: &HostRuntime, rows: &[Row]) -> Result<Option<usize>, Fail> {
    let mut open = Transactions::new(rt.alloc());
    for (i, row) in rows.iter().enumerate() {
        if !is_answered(rt, &mut open, row)? {
            return Ok(Some(i));
        }
    }
    Ok(None)
}

#[test]
fn a_list_lends_its_facts(rt: HostRuntime) -> Result<(), Fail> {
    let facts = facts_of(&rt, &[64, 70])?;
    assert_eq!(rt; are_of(&facts, &[64, 70]), true);
    assert_eq!(rt; facts.at(2).is_none(), true);
    Ok(())
}

#[test]
fn parts_come_in_any_order_and_again(rt: HostRuntime) -> Result<(), Fail> {
    let rows = [
        Row(0, B, Part(0, &[64, 65]), Open(1, None)),
        Row(0, B, Part(2, &[67, 68]), Open(2, None)),
        Row(0, B, End(3), Open(2, Some(3))),
        Row(0, B, Part(2, &[69]), Open(2, Some(3))),
        Row(0, B, Part(1, &[66]), Whole(&[64, 65, 66, 67, 68])),
        Row(0, B, Part(1, &[66]), Open(1, None)),
    ];
    assert_eq!(rt; first_wrong(&rt, &rows)?, None);
    Ok(())
}

#[test]
fn an_end_may_come_first(rt: HostRuntime) -> Result<(), Fail> {
    let rows = [
        Row(0, B, End(2), Open(0, Some(2))),
        Row(0, B, Part(1, &[65]), Open(1, Some(2))),
        Row(0, B, Part(0, &[64]), Whole(&[64, 65])),
        Row(0, B, End(0), Whole(&[])),
    ];
    assert_eq!(rt; first_wrong(&rt, &rows)?, None);
    Ok(())
}

#[test]
fn the_first_end_counts(rt: HostRuntime) -> Result<(), Fail> {
    let rows = [
        Row(0, B, Part(65_535, &[70]), Open(1, None)),
        Row(0, B, End(1), Open(1, Some(1))),
        Row(0, B, End(0), Open(1, Some(1))),
        Row(0, B, Part(0, &[64]), Whole(&[64])),
    ];
    assert_eq!(rt; first_wrong(&rt, &rows)?, None);
    Ok(())
}

#[test]
fn a_transaction_is_open_for_a_minute(rt: HostRuntime) -> Result<(), Fail> {
    let rows = [
        Row(0, B, Part(0, &[64]), Open(1, None)),
        Row(0, C, Part(0, &[70]), Open(1, None)),
        Row(59_999, B, End(1), Whole(&[64])),
        Row(60_000, C, End(1), Open(0, Some(1))),
        Row(119_999, C, Part(0, &[71]), Whole(&[71])),
    ];
    assert_eq!(rt; first_wrong(&rt, &rows)?, None);
    Ok(())
}

#[test]
fn two_senders_may_take_one_id(rt: HostRuntime) -> Result<(), Fail> {
    let rows = [
        Row(0, B, Part(0, &[64]), Open(1, None)),
        Row(0, C, End(1), Open(0, Some(1))),
        Row(0, B, End(1), Whole(&[64])),
        Row(0, C, Part(0, &[70]), Whole(&[70])),
    ];
    assert_eq!(rt; first_wrong(&rt, &rows)?, None);
    Ok(())
}
