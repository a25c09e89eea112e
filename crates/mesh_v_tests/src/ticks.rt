use mesh_algo::{Beats, Head};
use mesh_base::Mac;
use mesh_v::{Algo, V};

const A: Mac = Mac([2, 0, 0, 0, 0, 10]);

#[test]
fn an_elp_is_sent_at_the_first_tick_and_no_ogm(rt: HostRuntime) {
    let mut a = V::new(rt.alloc(), A);
    let elp = Head::Elp {
        orig: A,
        seq: 1,
        interval: 500,
    };
    let beats = Beats {
        elp: Some(elp),
        ogm: None,
    };
    assert_eq!(rt; a.tick(500, 1), beats);
}

#[test]
fn an_ogm_of_the_greatest_throughput_is_sent_at_an_even_tick(rt: HostRuntime) {
    let mut a = V::new(rt.alloc(), A);
    let ogm = Head::Ogm2 {
        ttl: 50,
        flags: 0,
        seq: 1,
        orig: A,
        throughput: 4_294_967_295,
    };
    assert_eq!(rt; a.tick(1000, 2).ogm, Some(ogm));
}
