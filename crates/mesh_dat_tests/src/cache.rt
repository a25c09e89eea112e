use mesh_base::{Mac, Vid};
use mesh_dat::{ArpRow, Cache};
use std::test::Fail;

const LOW: Mac = Mac([2, 0, 0, 0, 1, 1]);

const HIGH: Mac = Mac([2, 0, 0, 0, 1, 2]);

#[test]
fn a_pair_is_known_for_five_minutes(rt: HostRuntime) -> Result<(), Fail> {
    let mut cache = Cache::new(rt.alloc());
    cache.learn(1_000, 0x0a00_0001, Vid::UNTAGGED, LOW)?;
    assert_eq!(rt;
        cache.lookup(300_999, 0x0a00_0001, Vid::UNTAGGED),
        Some(LOW)
    );
    assert_eq!(rt; cache.lookup(301_000, 0x0a00_0001, Vid::UNTAGGED), None);
    assert_eq!(rt; cache.lookup(1_000, 0x0a00_0001, Vid(0x8007)), None);
    cache.learn(301_000, 0x0a00_0001, Vid::UNTAGGED, HIGH)?;
    assert_eq!(rt;
        cache.lookup(301_000, 0x0a00_0001, Vid::UNTAGGED),
        Some(HIGH)
    );
    Ok(())
}

#[test]
fn rows_stand_by_address_then_by_vlan(rt: HostRuntime) -> Result<(), Fail> {
    let mut cache = Cache::new(rt.alloc());
    cache.learn(0, 0x0a00_0002, Vid::UNTAGGED, HIGH)?;
    cache.learn(5, 0x0a00_0001, Vid(0x8007), LOW)?;
    cache.learn(7, 0x0a00_0001, Vid::UNTAGGED, LOW)?;
    let row = |ip: u32, vid: Vid, mac: Mac, age: u64| ArpRow { ip, vid, mac, age };
    assert_eq!(rt;
        cache.row_at(10, 0),
        Some(row(0x0a00_0001, Vid::UNTAGGED, LOW, 3))
    );
    assert_eq!(rt;
        cache.row_at(10, 1),
        Some(row(0x0a00_0001, Vid(0x8007), LOW, 5))
    );
    assert_eq!(rt;
        cache.row_at(10, 2),
        Some(row(0x0a00_0002, Vid::UNTAGGED, HIGH, 10))
    );
    assert_eq!(rt; cache.row_at(10, 3), None);
    Ok(())
}
