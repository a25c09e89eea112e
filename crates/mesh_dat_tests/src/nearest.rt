use mesh_base::{Mac, Vid};
use mesh_dat::candidates;
use std::test::Fail;

const A: Mac = Mac([2, 0, 0, 0, 0, 10]);

const B: Mac = Mac([2, 0, 0, 0, 0, 11]);

const C: Mac = Mac([2, 0, 0, 0, 0, 12]);

const D: Mac = Mac([2, 0, 0, 0, 0, 13]);

const E: Mac = Mac([2, 0, 0, 0, 0, 14]);

// The orders were computed by another program's CRC32C.
#[test]
fn a_pair_is_kept_by_the_three_that_are_nearest(rt: HostRuntime) -> Result<(), Fail> {
    let nodes = [A, B, C, D, E];
    let untagged = Vid::UNTAGGED;
    assert_eq!(rt;
        candidates(0x0a00_0001, untagged, &nodes),
        [Some(C), Some(A), Some(D)]
    );
    assert_eq!(rt;
        candidates(0x0a00_0002, untagged, &nodes),
        [Some(D), Some(B), Some(E)]
    );
    assert_eq!(rt;
        candidates(0x0a00_0001, Vid(0x8007), &nodes),
        [Some(D), Some(B), Some(E)]
    );
    assert_eq!(rt;
        candidates(0xc0a8_0101, Vid(0x8ffe), &nodes),
        [Some(D), Some(B), Some(E)]
    );
    assert_eq!(rt;
        candidates(0x0a00_0001, untagged, &[E, B]),
        [Some(B), Some(E), None]
    );
    assert_eq!(rt; candidates(0x0a00_0001, untagged, &[]), [None, None, None]);
    Ok(())
}
