use mesh_base::{Key, Mac, NoMemory, Vid};
use tt_sync::{AdviseErr, AskErr, Sync};

/// A client.
const CLIENT: Key = Key {
    mac: Mac([2, 0, 0, 0, 1, 1]),
    vid: Vid::UNTAGGED,
};

/// An originator.
const NODE: Mac = Mac([2, 0, 0, 0, 0, 10]);

#[test]
fn a_sixth_advertisement_waits(rt: HostRuntime) {
    let mut sync = Sync::new(rt.alloc());
    let too_many = Err(AdviseErr::TooMany { oldest: 0 });
    for (now, advised) in [
        (0, Ok(())),
        (1, Ok(())),
        (2, Ok(())),
        (3, Ok(())),
        (4, Ok(())),
        (19_999, too_many),
        (20_000, Ok(())),
    ] {
        assert_eq!(rt; sync.advise(now, CLIENT), advised, "at {now}");
    }
}

#[test]
fn a_second_request_waits(rt: HostRuntime) {
    let mut sync = Sync::new(rt.alloc());
    let too_soon = Err(AskErr::TooSoon { asked_at: 10 });
    for (now, asked) in [(10, Ok(())), (3_009, too_soon), (3_010, Ok(()))] {
        assert_eq!(rt; sync.ask(now, NODE), asked, "at {now}");
    }
}

#[test]
fn marks_are_told_while_one_is_remembered(rt: HostRuntime) -> Result<(), NoMemory> {
    let mut sync = Sync::new(rt.alloc());
    assert!(rt; !sync.has_marks());
    sync.mark(0, CLIENT, NODE, Some(1))?;
    assert!(rt; sync.has_marks());
    sync.unmark(CLIENT);
    assert!(rt; !sync.has_marks());
    Ok(())
}
