use mesh_base::{Key, Mac, Vid};
use mesh_vis::{read_vis, write_vis};
use std::test::Fail;

const B: Mac = Mac([2, 0, 0, 0, 0, 11]);

const CLIENT: Key = Key {
    mac: Mac([2, 0, 0, 0, 1, 1]),
    vid: Vid(0x8007),
};

#[test]
fn a_picture_is_written_field_by_field(rt: HostRuntime) -> Result<(), Fail> {
    let mut out = Vec::new(rt.alloc());
    out.push(9)?;
    write_vis(&mut out, &[(B, 0x0102_0304)], &[CLIENT])?;
    let bytes: &[u8] = &[
        9, 1, 2, 0, 0, 0, 0, 11, 1, 2, 3, 4, 1, 2, 0, 0, 0, 1, 1, 0x80, 7,
    ];
    assert_eq!(rt; out.as_slice() == bytes, true);
    Ok(())
}

// What stands at a place of the picture in these bytes: a neighbour and a client.
fn read_at(bytes: &[u8], i: usize) -> (Option<(Mac, u32)>, Option<Key>) {
    match read_vis(bytes) {
        Some(picture) => (picture.neigh_at(i), picture.client_at(i)),
        None => (None, None),
    }
}

#[test]
fn a_picture_is_read_by_place(rt: HostRuntime) -> Result<(), Fail> {
    let mut bytes = Vec::new(rt.alloc());
    write_vis(&mut bytes, &[(B, 7)], &[CLIENT])?;
    assert_eq!(rt; read_at(bytes.as_slice(), 0), (Some((B, 7)), Some(CLIENT)));
    assert_eq!(rt; read_at(bytes.as_slice(), 1), (None, None));
    let few = read_vis(bytes.as_slice()).map(|picture| (picture.neighs(), picture.clients()));
    assert_eq!(rt; few, Some((1, 1)));
    Ok(())
}

#[test]
fn bytes_are_no_picture_where_one_is_missing_or_follows(rt: HostRuntime) -> Result<(), Fail> {
    let bytes: &[u8] = &[1, 2, 0, 0, 0, 0, 11, 0, 0, 0, 7, 0, 0];
    assert_eq!(rt; read_vis(&bytes[..12]).is_some(), true);
    for len in 0..12 {
        assert_eq!(rt; read_vis(&bytes[..len]).is_none(), true);
    }
    assert_eq!(rt; read_vis(bytes).is_none(), true);
    Ok(())
}
