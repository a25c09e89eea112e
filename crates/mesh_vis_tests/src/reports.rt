use alfred_core::Facts;
use mesh_base::{Key, Mac, Vid};
use mesh_vis::{report, write_vis};
use std::test::Fail;

const A: Mac = Mac([2, 0, 0, 0, 0, 10]);

const B: Mac = Mac([2, 0, 0, 0, 0, 11]);

const CLIENT: Key = Key {
    mac: Mac([2, 0, 0, 0, 1, 1]),
    vid: Vid(0),
};

#[test]
fn a_store_without_pictures_is_an_empty_list(rt: HostRuntime) -> Result<(), Fail> {
    let mut facts = Facts::new(rt.alloc(), A);
    facts.put(0, 1, 1, b"no picture")?;
    facts.put(0, 64, 1, &[0, 0])?;
    let mut out = Vec::new(rt.alloc());
    report(rt.alloc(), &mut out, &facts, 5)?;
    assert_eq!(rt; out.as_slice() == b"[]".as_slice(), true);
    Ok(())
}

#[test]
fn a_picture_is_told_until_it_is_dead(rt: HostRuntime) -> Result<(), Fail> {
    let mut picture = Vec::new(rt.alloc());
    write_vis(&mut picture, &[(B, 144)], &[CLIENT])?;
    let mut facts = Facts::new(rt.alloc(), A);
    facts.put(10_000, 1, 1, picture.as_slice())?;
    let mut out = Vec::new(rt.alloc());
    report(rt.alloc(), &mut out, &facts, 609_999)?;
    let text =
        "[{\"clients\":[\"02:00:00:00:01:01/-\"],\"neighbors\":[{\"metric\":144,\"router\":\"02:00:00:00:00:0b\"}],\"node\":\"02:00:00:00:00:0a\"}]";
    assert_eq!(rt; out.as_slice() == text.as_bytes(), true);
    let mut later = Vec::new(rt.alloc());
    report(rt.alloc(), &mut later, &facts, 610_000)?;
    assert_eq!(rt; later.as_slice() == b"[]".as_slice(), true);
    Ok(())
}
