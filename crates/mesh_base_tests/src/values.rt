use mesh_base::{Bytes, Event, Events, Mac, Names, NoMemory};

const A: Mac = Mac([2, 0, 0, 0, 0, 0x0a]);

#[test]
fn values_hold_what_they_are_given(rt: HostRuntime) -> Result<(), NoMemory> {
    let bytes = Bytes::from_slice(rt.alloc(), b"bat")?;
    assert_eq!(rt; bytes.as_slice(), b"bat".as_slice());
    assert_eq!(rt; bytes.into_vec().as_slice(), b"bat".as_slice());
    let mut names = Names::new(rt.alloc());
    names.add_node(A, b"A")?;
    names.add_lan(b"first")?;
    assert_eq!(rt; names.node_place(b"A"), Some(0));
    assert_eq!(rt; names.lan_name(1).is_some(), true);
    let mut events = Events::new(rt.alloc());
    events.push(Event::Alias {
        node: A,
        commit: 257,
        earlier: 1,
    })?;
    assert_eq!(rt; events.len(), 1);
    Ok(())
}
