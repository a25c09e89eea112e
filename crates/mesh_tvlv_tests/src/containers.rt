use mesh_base::{Entry, Key, Mac, NoMemory, Vid};
use mesh_tvlv::{
    TvlvErr, TvlvIter, layout, read_roam, read_tt_part, write_change, write_container,
    write_tt_head, write_tt_part_head, write_vlan,
};

fn entry(last: u8, vid: u16, flags: u8) -> Entry {
    let key = Key {
        mac: Mac([2, 0, 0, 0, 1, last]),
        vid: Vid(vid),
    };
    Entry { key, flags }
}

#[test]
fn a_cut_is_told_once_at_its_place(rt: HostRuntime) {
    let mut walk = TvlvIter::new(&[4, 1, 0, 5, 0]);
    assert_eq!(rt; walk.next(), Some(Err(TvlvErr::Cut { place: 0 })));
    assert_eq!(rt; walk.next(), None);
}

#[test]
fn a_client_that_roamed_has_eight_bytes(rt: HostRuntime) {
    let bytes = [2, 0, 0, 0, 1, 1, 0x80, 5];
    assert_eq!(rt; read_roam(&bytes), Ok(entry(1, 0x8005, 0).key));
    assert_eq!(rt;
        read_roam(&bytes[..7]),
        Err(TvlvErr::BadLength { kind: 5, len: 7 })
    );
}

#[test]
fn a_container_is_written_byte_by_byte(rt: HostRuntime) -> Result<(), NoMemory> {
    let mut table = Vec::new(rt.alloc());
    write_tt_head(&mut table, layout::OGM_DIFF, 255, 1)?;
    write_vlan(&mut table, Vid(0x8005), 0x01020304)?;
    write_change(&mut table, &entry(1, 0x8005, 0xff), true)?;
    write_change(&mut table, &entry(2, 0, 0x12), false)?;
    let mut out = Vec::new(rt.alloc());
    write_container(&mut out, layout::DAT, layout::VERSION, &[])?;
    write_container(&mut out, layout::TT, layout::VERSION, table.as_slice())?;
    let expected = [
        2, 1, 0, 0, 4, 1, 0, 36, //
        0x01, 255, 0, 1, //
        1, 2, 3, 4, 0x80, 5, 0, 0, //
        0x31, 0, 0, 0, 2, 0, 0, 0, 1, 1, 0x80, 5, //
        0x10, 0, 0, 0, 2, 0, 0, 0, 1, 2, 0, 0,
    ];
    assert_eq!(rt; out.as_slice(), expected.as_slice());
    Ok(())
}

#[test]
fn a_part_is_written_byte_by_byte_and_read(rt: HostRuntime) -> Result<(), NoMemory> {
    let mut part = Vec::new(rt.alloc());
    write_tt_part_head(&mut part, 0x14, 1, 1, 1, 0x0203)?;
    write_vlan(&mut part, Vid(0), 0x3d4131cb)?;
    write_change(&mut part, &entry(5, 0, 0), false)?;
    let expected = [
        0x14, 1, 0, 1, 0, 1, 2, 3, //
        0x3d, 0x41, 0x31, 0xcb, 0, 0, 0, 0, //
        0, 0, 0, 0, 2, 0, 0, 0, 1, 5, 0, 0,
    ];
    assert_eq!(rt; part.as_slice(), expected.as_slice());
    let Ok((table, number, count)) = read_tt_part(&expected) else {
        assert!(rt; false);
        return Ok(());
    };
    assert_eq!(rt; (number, count), (1, 0x0203));
    assert_eq!(rt; table.vlan_at(0), Some((Vid(0), 0x3d4131cb)));
    assert_eq!(rt; table.change_at(0), Some((entry(5, 0, 0), false)));
    assert!(rt; read_tt_part(&expected[..7]).is_err());
    Ok(())
}
