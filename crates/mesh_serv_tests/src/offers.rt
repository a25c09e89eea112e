use mesh_base::Mac;
use mesh_serv::{Bandwidth, Offer, Offers};
use std::test::Fail;

const B: Mac = Mac([2, 0, 0, 0, 0, 11]);

const C: Mac = Mac([2, 0, 0, 0, 0, 12]);

#[test]
fn the_last_offer_of_each_counts(rt: HostRuntime) -> Result<(), Fail> {
    let gateway = Offer {
        gateway: Some(Bandwidth {
            download: 100,
            upload: 20,
        }),
        arp_table: true,
        multicast: None,
    };
    let groups = Offer {
        gateway: None,
        arp_table: false,
        multicast: Some(3),
    };
    let mut offers = Offers::new(rt.alloc());
    offers.note(C, gateway)?;
    offers.note(B, gateway)?;
    offers.note(C, groups)?;
    offers.note(C, groups)?;
    assert_eq!(rt; offers.offer_of(C), Some(groups));
    let addresses = [Some(B), Some(C), None];
    for (i, address) in addresses.iter().enumerate() {
        let there = offers.iter().map(|(orig, _)| *orig).nth(i);
        assert_eq!(rt; there, *address);
    }
    Ok(())
}
