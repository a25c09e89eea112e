use mesh_algo::{Head, Hearing, OrigRow};
use mesh_base::{Mac, Millis};
use mesh_v::laws::keys_come_from_heads;
use mesh_v::{Algo, V};
use std::alloc::Global;

const A: Mac = Mac([2, 0, 0, 0, 0, 10]);

const B: Mac = Mac([2, 0, 0, 0, 0, 11]);

const C: Mac = Mac([2, 0, 0, 0, 0, 12]);

const D: Mac = Mac([2, 0, 0, 0, 0, 13]);

// The first OGM of D with what is left to it.
fn ogm(ttl: u8, throughput: u32) -> Head {
    Head::Ogm2 {
        ttl,
        flags: 0,
        seq: 1,
        orig: D,
        throughput,
    }
}

// What is sent on of an OGM that came from a neighbour, whose first ELP came over this link before.
fn sent_on(node: &mut V, k: Mac, link: u32, now: Millis, came: &Head) -> Option<Head> {
    let elp = Head::Elp {
        orig: k,
        seq: 1,
        interval: 500,
    };
    if node.hear(500, k, link, &elp).is_err() {
        return None;
    }
    match node.hear(now, k, link, came) {
        Ok(
            Hearing {
                accepted: true,
                began: true,
                forward,
            },
        ) => forward,
        Ok(_) | Err(_) => None,
    }
}

// What a node that was just started sends on of it, and its metric for D.
fn hop(alloc: Global, me: Mac, k: Mac, link: u32, now: Millis, came: &Head) -> Option<(Head, u32)> {
    let mut node = V::new(alloc, me);
    let sent = sent_on(&mut node, k, link, now, came)?;
    Some((sent, node.metric(1500, D)))
}

// The chain A, B, C, D of links of 50, 100 and 20: at each hop 225 of 255 parts are left, floored.
#[test]
fn a_hop_takes_its_part_and_a_link_its_throughput(rt: HostRuntime) {
    let alloc = rt.alloc();
    assert_eq!(rt;
        hop(alloc, C, D, 20, 1001, &ogm(50, u32::MAX)),
        Some((ogm(49, 17), 20))
    );
    assert_eq!(rt;
        hop(alloc, B, C, 100, 1002, &ogm(49, 17)),
        Some((ogm(48, 15), 17))
    );
    assert_eq!(rt;
        hop(alloc, A, B, 50, 1003, &ogm(48, 15)),
        Some((ogm(47, 13), 15))
    );
}

#[test]
fn the_end_of_the_chain_has_one_row(rt: HostRuntime) {
    let mut a = V::new(rt.alloc(), A);
    assert_eq!(rt;
        sent_on(&mut a, B, 50, 1003, &ogm(48, 15)),
        Some(ogm(47, 13))
    );
    assert_eq!(rt; (a.route(1500, D), a.live(1500, D)), (Some(B), true));
    let row = OrigRow {
        orig: D,
        seq: 1,
        seen: 497,
        next: Some(B),
        metric: 15,
    };
    assert_eq!(rt; (a.orig_at(1500, 0), a.orig_at(1500, 1)), (Some(row), None));
    keys_come_from_heads(&a);
}
