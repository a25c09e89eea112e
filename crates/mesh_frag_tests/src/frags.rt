use crate::packets::{A, packet_of};
use mesh_frag::{Cuts, Frag, Frags, Head, cut};
use std::test::Fail;

// Hands on the fragment of a cut at a place, and tells whether it makes this packet whole.
fn makes_whole(frags: &mut Frags, cuts: &Cuts, place: usize, packet: &[u8]) -> Result<bool, Fail> {
    let Some((head, tail)) = cuts.at(place) else {
        return Ok(false);
    };
    let Head::Frag { .. } = head else {
        return Ok(false);
    };
    match frags.part(0, &head, tail)? {
        Frag::Open { .. } => Ok(false),
        Frag::Whole(bytes) => Ok(bytes.as_slice() == packet),
    }
}

// Hands on the fragments of a cut, the last one first, and tells whether the first place makes the
// packet whole, and none before it does.
fn come_back(rt: &HostRuntime, packet: &[u8], cuts: &Cuts) -> Result<bool, Fail> {
    let mut frags = Frags::new(rt.alloc());
    for place in (1..cuts.len()).rev() {
        if makes_whole(&mut frags, cuts, place, packet)? {
            return Ok(false);
        }
    }
    makes_whole(&mut frags, cuts, 0, packet)
}

#[test]
fn fragments_of_a_cut_come_back(rt: HostRuntime) -> Result<(), Fail> {
    let packet = packet_of(&rt, 4_074)?;
    let cuts = cut(rt.alloc(), &packet, 300, A, 1)?;
    assert_eq!(rt; come_back(&rt, &packet, &cuts)?, true);
    Ok(())
}
