use mesh_algo::{Head, Hearing};
use mesh_base::{Mac, Millis};
use mesh_v::{Algo, V};

const A: Mac = Mac([2, 0, 0, 0, 0, 10]);

const B: Mac = Mac([2, 0, 0, 0, 0, 11]);

// What is made of an OGM of B, which was up just before: whether it is accepted, and whether a life
// begins with it.
fn heard(node: &mut V, now: Millis, seq: u32) -> Option<(bool, bool)> {
    let elp = Head::Elp {
        orig: B,
        seq: 1,
        interval: 500,
    };
    let ogm = Head::Ogm2 {
        ttl: 50,
        flags: 0,
        seq,
        orig: B,
        throughput: 80,
    };
    if node.hear(now, B, 100, &elp).is_err() {
        return None;
    }
    match node.hear(now, B, 100, &ogm) {
        Ok(
            Hearing {
                accepted,
                began,
                forward: _,
            },
        ) => Some((accepted, began)),
        Err(_) => None,
    }
}

// Number 36 is far from 100, and 37 isn't. After the restart at 36, number 101 isn't far.
#[test]
fn a_life_begins_with_a_restart(rt: HostRuntime) {
    let mut a = V::new(rt.alloc(), A);
    assert_eq!(rt; heard(&mut a, 1000, 100), Some((true, true)));
    assert_eq!(rt; heard(&mut a, 2000, 37), Some((false, false)));
    assert_eq!(rt; heard(&mut a, 3000, 36), Some((true, true)));
    let newest = a.orig_at(3000, 0).map(|row| row.seq);
    assert_eq!(rt; newest, Some(36));
    assert_eq!(rt; heard(&mut a, 4000, 101), Some((true, false)));
}

// A far number within 30 seconds after a restart counts for nothing but the life.
#[test]
fn a_second_restart_waits_30_seconds(rt: HostRuntime) {
    let mut a = V::new(rt.alloc(), A);
    assert_eq!(rt; heard(&mut a, 1000, 100), Some((true, true)));
    assert_eq!(rt; heard(&mut a, 2000, 1), Some((true, true)));
    assert_eq!(rt; heard(&mut a, 31_999, 65_537), Some((false, false)));
    let newest = a.orig_at(31_999, 0).map(|row| (row.seq, row.seen));
    assert_eq!(rt; newest, Some((1, 0)));
    assert_eq!(rt; heard(&mut a, 32_000, 65_537), Some((true, true)));
}

#[test]
fn a_node_that_restarts_knows_nothing_and_numbers_anew(rt: HostRuntime) {
    let mut a = V::new(rt.alloc(), A);
    assert_eq!(rt; heard(&mut a, 1000, 100), Some((true, true)));
    a.restart();
    assert_eq!(rt; (a.live(1000, B), a.orig_at(1000, 0)), (false, None));
    assert_eq!(rt; heard(&mut a, 1500, 7), Some((true, true)));
}
