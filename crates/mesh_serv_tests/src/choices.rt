use mesh_base::Mac;
use mesh_serv::{Fan, GwRow, Policy, choose, plan, wants};
use std::test::Fail;

const B: Mac = Mac([2, 0, 0, 0, 0, 11]);

const C: Mac = Mac([2, 0, 0, 0, 0, 12]);

fn gateway(orig: Mac, metric: u32) -> GwRow {
    GwRow {
        orig,
        down: 100,
        up: 20,
        metric,
    }
}

#[test]
fn a_late_choice_is_left_for_one_that_is_ten_better(rt: HostRuntime) -> Result<(), Fail> {
    let late = Policy::Late(10);
    let near = [gateway(B, 100), gateway(C, 109)];
    assert_eq!(rt; choose(late, Some(B), &near), Some(B));
    let far = [gateway(B, 100), gateway(C, 110)];
    assert_eq!(rt; choose(late, Some(B), &far), Some(C));
    assert_eq!(rt; choose(late, Some(B), &[]), None);
    Ok(())
}

#[test]
fn a_group_goes_to_those_that_want_it(rt: HostRuntime) -> Result<(), Fail> {
    assert_eq!(rt; wants(Mac([0x01, 0x00, 0x5e, 0, 0, 251]), 1), true);
    assert_eq!(rt; wants(Mac([0x33, 0x33, 0, 0, 0, 2]), 1), false);
    assert_eq!(rt; plan(16), Fan::Each);
    assert_eq!(rt; plan(17), Fan::Flood);
    Ok(())
}
