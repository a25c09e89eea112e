use mesh_base::{Key, Mac, Vid};
use mesh_bla::{ClaimRow, Claims};
use std::test::Fail;

const A: Mac = Mac([2, 0, 0, 0, 0, 10]);

const B: Mac = Mac([2, 0, 0, 0, 0, 11]);

fn client(low: u8, vid: u16) -> Key {
    Key {
        mac: Mac([2, 0, 0, 0, 0, low]),
        vid: Vid(vid),
    }
}

#[test]
fn claims_stand_in_key_order(rt: HostRuntime) -> Result<(), Fail> {
    let mut claims = Claims::new(rt.alloc(), A);
    claims.claim_frame(10, A, client(201, 0x8007), true)?;
    claims.claim_frame(20, B, client(202, 0), true)?;
    claims.claim_frame(30, A, client(201, 0), true)?;
    let first = ClaimRow {
        key: client(201, 0),
        holder: A,
        age: 70,
    };
    let second = ClaimRow {
        key: client(201, 0x8007),
        holder: A,
        age: 90,
    };
    let third = ClaimRow {
        key: client(202, 0),
        holder: B,
        age: 80,
    };
    let rows = [
        claims.row_at(100, 0),
        claims.row_at(100, 1),
        claims.row_at(100, 2),
        claims.row_at(100, 3),
    ];
    assert_eq!(rt; rows, [Some(first), Some(second), Some(third), None]);
    assert_eq!(rt; claims.announce(100), 2);
    Ok(())
}

#[test]
fn a_claim_ends_by_an_unclaim_and_after_a_hundred_seconds(rt: HostRuntime) -> Result<(), Fail> {
    let mut claims = Claims::new(rt.alloc(), A);
    claims.claim_frame(0, A, client(201, 0), true)?;
    claims.claim_frame(50, B, client(202, 0), true)?;
    claims.claim_frame(60, A, client(202, 0), false)?;
    assert_eq!(rt; claims.holder(60, client(202, 0)), None);
    assert_eq!(rt; claims.holder(99_999, client(201, 0)), Some(A));
    assert_eq!(rt; claims.holder(100_000, client(201, 0)), None);
    assert_eq!(rt; claims.row_at(100_000, 0), None);
    assert_eq!(rt; claims.announce(100_000), 0);
    Ok(())
}
