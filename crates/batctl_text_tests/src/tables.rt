use batctl_text::{
    entry_line, gateway_header, gateway_line, global_header, global_line, group_header,
    groups_line, joined_line, local_header, local_line, mark_line,
};
use mesh_base::{Key, Mac, NoMemory, Vid};
use mesh_model::service::{GroupRow, GwMode, GwRow};

const B: Mac = Mac([2, 0, 0, 0, 0, 0x0b]);

const C1: Mac = Mac([2, 0, 0, 0, 1, 1]);

const GROUP: Mac = Mac([0x33, 0x33, 0, 0, 0, 1]);

/// The VLAN 7.
const SEVEN: Vid = Vid(0x8007);

#[test]
fn a_group_has_no_age(rt: HostRuntime) -> Result<(), NoMemory> {
    let mut out = Vec::new(rt.alloc());
    local_header(&mut out, b"A", 1, 2)?;
    local_line(&mut out, C1, SEVEN, 0x10, Some(599_999))?;
    local_line(&mut out, GROUP, Vid::UNTAGGED, 0x20, None)?;
    let text = b"tl A version=1 clients=2\n\
        c 02:00:00:00:01:01 7 w- age=599999\n\
        c 33:33:00:00:00:01 - -i age=-\n";
    assert_eq!(rt; out.as_slice(), text.as_slice());
    Ok(())
}

#[test]
fn a_mark_stands_behind_what_is_known(rt: HostRuntime) -> Result<(), NoMemory> {
    let mut out = Vec::new(rt.alloc());
    global_header(&mut out, b"C", 1)?;
    global_line(&mut out, B, None, 255, false, 0)?;
    entry_line(&mut out, C1, SEVEN, 0x30)?;
    mark_line(&mut out, C1, Vid::UNTAGGED, B)?;
    let text = b"tg C count=1\n\
        t 02:00:00:00:00:0b held=- told=255 state=none entries=0\n\
        e 02:00:00:00:01:01 7 wi\n\
        r 02:00:00:00:01:01 - to=02:00:00:00:00:0b\n";
    assert_eq!(rt; out.as_slice(), text.as_slice());
    Ok(())
}

#[test]
fn a_gateway_that_serves_has_chosen_none(rt: HostRuntime) -> Result<(), NoMemory> {
    let mut out = Vec::new(rt.alloc());
    gateway_header(&mut out, b"A", GwMode::Server, None)?;
    gateway_header(&mut out, b"A", GwMode::Client, Some(B))?;
    let row = GwRow {
        orig: B,
        down: u32::MAX,
        up: 1,
        metric: 100,
    };
    gateway_line(&mut out, row)?;
    let text = b"gw A mode=server chosen=-\n\
        gw A mode=client chosen=02:00:00:00:00:0b\n\
        g 02:00:00:00:00:0b down=4294967295 up=1 metric=100\n";
    assert_eq!(rt; out.as_slice(), text.as_slice());
    Ok(())
}

#[test]
fn flags_stand_behind_the_groups_that_are_joined(rt: HostRuntime) -> Result<(), NoMemory> {
    let mut out = Vec::new(rt.alloc());
    group_header(&mut out, b"A", 2)?;
    let group = Key {
        mac: GROUP,
        vid: SEVEN,
    };
    joined_line(&mut out, group)?;
    groups_line(&mut out, GroupRow { orig: B, flags: 5 })?;
    let text = b"mc A count=2\n\
        j 33:33:00:00:00:01 7\n\
        m 02:00:00:00:00:0b flags=05\n";
    assert_eq!(rt; out.as_slice(), text.as_slice());
    Ok(())
}
