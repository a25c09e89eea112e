use frame_store::{FrameStore, StoreErr};
use std::test::Fail;

#[test]
fn the_frame_after_the_last_one_is_refused(rt: HostRuntime) -> Result<(), Fail> {
    let mut store = FrameStore::new(rt.alloc());
    for _ in 0..4_194_304 {
        store.push(&[])?;
    }
    assert_eq!(rt; store.push(&[]), Err(StoreErr::Full));
    assert_eq!(rt; (store.len(), store.total()), (4_194_304, 0));
    Ok(())
}
