use mesh_algo::{Head, LinkRow};
use mesh_base::{Mac, Millis, NoMemory};
use mesh_v::{Algo, V};

const A: Mac = Mac([2, 0, 0, 0, 0, 10]);

const B: Mac = Mac([2, 0, 0, 0, 0, 11]);

const C: Mac = Mac([2, 0, 0, 0, 0, 12]);

const D: Mac = Mac([2, 0, 0, 0, 0, 13]);

// An ELP of a neighbour comes over a link of 100.
fn hear_elp(node: &mut V, now: Millis, k: Mac) -> Result<(), NoMemory> {
    let elp = Head::Elp {
        orig: k,
        seq: 1,
        interval: 500,
    };
    node.hear(now, k, 100, &elp)?;
    Ok(())
}

// An OGM of D of a number and a throughput comes from a neighbour over a link of 100.
fn hear_ogm(node: &mut V, now: Millis, k: Mac, seq: u32, throughput: u32) -> Result<(), NoMemory> {
    let ogm = Head::Ogm2 {
        ttl: 50,
        flags: 0,
        seq,
        orig: D,
        throughput,
    };
    node.hear(now, k, 100, &ogm)?;
    Ok(())
}

#[test]
fn a_neighbour_is_down_where_its_elp_is_five_seconds_old(rt: HostRuntime) {
    let mut a = V::new(rt.alloc(), A);
    assert!(rt; hear_elp(&mut a, 500, B).is_ok() && hear_ogm(&mut a, 1001, B, 1, 80).is_ok());
    let row = LinkRow::V {
        neigh: B,
        tp: 100,
        seen: 4999,
    };
    assert_eq!(rt; (a.link_at(5499, 0), a.link_at(5499, 1)), (Some(row), None));
    assert_eq!(rt; (a.metric(5499, D), a.route(5499, D)), (80, Some(B)));
    assert_eq!(rt; a.link_at(5500, 0), None);
    assert_eq!(rt; (a.metric(5500, D), a.route(5500, D)), (0, None));
    assert!(rt; a.live(5500, D));
    assert!(rt; hear_ogm(&mut a, 5500, B, 2, 90).is_ok());
    assert_eq!(rt; a.orig_at(5500, 0).map(|row| row.seq), Some(1));
}

#[test]
fn a_number_five_below_the_newest_counts_no_more(rt: HostRuntime) {
    let mut a = V::new(rt.alloc(), A);
    assert!(rt; hear_elp(&mut a, 500, B).is_ok() && hear_elp(&mut a, 500, C).is_ok());
    assert!(rt; hear_ogm(&mut a, 1001, B, 1, 90).is_ok());
    assert!(rt; hear_ogm(&mut a, 1002, C, 5, 80).is_ok());
    assert_eq!(rt; (a.route(1500, D), a.metric(1500, D)), (Some(B), 90));
    assert!(rt; hear_ogm(&mut a, 1003, C, 6, 80).is_ok());
    assert_eq!(rt; (a.route(1500, D), a.metric(1500, D)), (Some(C), 80));
}
