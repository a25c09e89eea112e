use mesh_base::{Key, Mac, Vid};
use mesh_bla::{Claims, Spread, Verdict};
use std::test::Fail;

const A: Mac = Mac([2, 0, 0, 0, 0, 10]);

const B: Mac = Mac([2, 0, 0, 0, 0, 11]);

const PHONE: Key = Key {
    mac: Mac([2, 0, 0, 0, 0, 201]),
    vid: Vid::UNTAGGED,
};

const PASSED: Verdict = Verdict {
    pass: true,
    claim: false,
};

const PASSED_AND_CLAIMED: Verdict = Verdict {
    pass: true,
    claim: true,
};

const HELD: Verdict = Verdict {
    pass: false,
    claim: false,
};

const HELD_AND_CLAIMED: Verdict = Verdict {
    pass: false,
    claim: true,
};

// What gateway A does at a moment with a frame of the phone: from the LAN, and from the mesh to one
// client, to a group, and to a group by a gateway of its LAN.
fn verdicts(claims: &Claims, now: u64) -> [Verdict; 4] {
    [
        claims.from_lan(now, PHONE),
        claims.from_mesh(now, PHONE, Spread::Unicast),
        claims.from_mesh(now, PHONE, Spread::Flood),
        claims.from_mesh(now, PHONE, Spread::SameLan),
    ]
}

#[test]
fn a_client_that_nobody_holds_is_claimed(rt: HostRuntime) -> Result<(), Fail> {
    let claims = Claims::new(rt.alloc(), A);
    let all = [HELD_AND_CLAIMED, PASSED_AND_CLAIMED, HELD_AND_CLAIMED, HELD];
    assert_eq!(rt; verdicts(&claims, 5), all);
    assert_eq!(rt; claims.holder(5, PHONE), None);
    Ok(())
}

#[test]
fn the_holder_passes_and_claims_anew_after_ten_seconds(rt: HostRuntime) -> Result<(), Fail> {
    let mut claims = Claims::new(rt.alloc(), A);
    claims.claim_frame(1_000, A, PHONE, true)?;
    assert_eq!(rt; claims.holder(1_000, PHONE), Some(A));
    assert_eq!(rt; verdicts(&claims, 10_999), [PASSED, PASSED, PASSED, HELD]);
    let anew = [
        PASSED_AND_CLAIMED,
        PASSED_AND_CLAIMED,
        PASSED_AND_CLAIMED,
        HELD,
    ];
    assert_eq!(rt; verdicts(&claims, 11_000), anew);
    Ok(())
}

#[test]
fn a_client_of_another_gateway_is_claimed_by_a_frame_to_one_client_alone(
    rt: HostRuntime,
) -> Result<(), Fail> {
    let mut claims = Claims::new(rt.alloc(), A);
    claims.claim_frame(1_000, A, PHONE, true)?;
    claims.claim_frame(2_000, B, PHONE, true)?;
    assert_eq!(rt; claims.holder(2_000, PHONE), Some(B));
    assert_eq!(rt;
        verdicts(&claims, 2_000),
        [HELD, PASSED_AND_CLAIMED, HELD, HELD]
    );
    Ok(())
}
