use alfred_core::{PrimaryRow, primary_of};
use mesh_base::Mac;
use std::test::Fail;

const A: Mac = Mac([2, 0, 0, 0, 0, 10]);

const B: Mac = Mac([2, 0, 0, 0, 0, 11]);

const C: Mac = Mac([2, 0, 0, 0, 0, 12]);

#[test]
fn a_primary_is_known_for_a_minute_and_has_a_route(rt: HostRuntime) -> Result<(), Fail> {
    let row = |orig: Mac, announced: u64, metric: u32| PrimaryRow {
        orig,
        announced,
        metric,
    };
    let rows = [row(C, 500, 100), row(A, 0, 200), row(B, 500, 100)];
    assert_eq!(rt; primary_of(59_999, &rows), Some(A));
    assert_eq!(rt; primary_of(60_000, &rows), Some(B));
    assert_eq!(rt; primary_of(60_500, &rows), None);
    assert_eq!(rt; primary_of(0, &[row(A, 0, 0)]), None);
    Ok(())
}
