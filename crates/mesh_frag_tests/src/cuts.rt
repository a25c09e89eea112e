use crate::packets::{A, B, packet_of};
use mesh_frag::{Cuts, Head, cut};
use std::test::Fail;

// Whether the fragment at a place is that of A's first cut, of a packet of this length, with a tail
// of this length.
fn is_at(cuts: &Cuts, number: u8, total: u16, size: usize) -> bool {
    let wanted = Head::Frag {
        ttl: 50,
        number,
        priority: 0,
        dst: B,
        orig: A,
        seq: 1,
        total,
    };
    match cuts.at(usize::from(number)) {
        Some((head, tail)) => head == wanted && tail.len() == size,
        None => false,
    }
}

#[test]
fn a_packet_of_324_bytes_has_two_fragments(rt: HostRuntime) -> Result<(), Fail> {
    let packet = packet_of(&rt, 324)?;
    let cuts = cut(rt.alloc(), &packet, 300, A, 1)?;
    assert_eq!(rt; cuts.len(), 2);
    assert_eq!(rt; is_at(&cuts, 0, 324, 280), true);
    assert_eq!(rt; is_at(&cuts, 1, 324, 44), true);
    assert_eq!(rt; cuts.at(2).is_none(), true);
    Ok(())
}
