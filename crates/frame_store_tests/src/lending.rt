ghost use Rattle.std.specs.Prelude.{◌≡◌, ◌<◌, ◌++◌, ◌∷◌, [], length, OnOk, OnErr};
ghost use Rattle.frame_store.specs.Frames.{frames};
ghost use Rattle.frame_store.specs.Store.{IsStore, IsTail};

use crate::chunks::{CHUNK, is_filled};
use frame_store::{FrameStore, Grown, Older, StoreErr, Tail};
use std::test::Fail;

// Pushes a frame on the tail of these parts.
fn push_on(older: &Older, grown: &mut Grown, bytes: &[u8]) -> Result<u32, StoreErr>
    requires { IsTail older.now grown.old }
    ensures stands { IsTail older.now grown.new }
    ensures ok { OnOk result
        (frames older.now grown.new ≡ frames older.now grown.old ++ bytes.now ∷ []) }
{
    Tail { older, grown }.push(bytes)
}

// Lends the first frame, pushes another on the tail, and answers its place, and whether the lent
// bytes are then these.
fn push_beside(store: &mut FrameStore, lent: &[u8], bytes: &[u8]) -> Result<(u32, bool), StoreErr>
    requires stands { IsStore store.old.older store.old.grown }
    requires some { 0 < length (frames store.old.older store.old.grown) }
    ensures stands { IsStore store.new.older store.new.grown }
    ensures ok { OnOk result (frames store.new.older store.new.grown
        ≡ frames store.old.older store.old.grown ++ bytes.now ∷ []) }
{
    let (first, Tail { older, grown }) = store.lend(0);
    let place = push_on(older, grown, bytes)?;
    Ok((place, first == lent))
}

#[test]
fn a_frame_is_lent_while_another_is_pushed(rt: HostRuntime) -> Result<(), Fail> {
    let mut store = FrameStore::new(rt.alloc());
    store.reserve(2, 3)?;
    assert_eq!(rt; store.push(&[0x61])?, 0);
    assert_eq!(rt; push_beside(&mut store, &[0x61], &[0x62, 0x62])?, (1, true));
    assert_eq!(rt; store.get(1), [0x62, 0x62].as_slice());
    Ok(())
}

#[test]
fn lent_bytes_stay_while_a_chunk_is_begun(rt: HostRuntime) -> Result<(), Fail> {
    let mut store = FrameStore::new(rt.alloc());
    store.push(b"lent")?;
    let long = vec![in rt.alloc(); 7_u8; CHUNK]?;
    assert_eq!(rt; push_beside(&mut store, b"lent", b"staged")?, (1, true));
    assert_eq!(rt; push_beside(&mut store, b"lent", &long)?, (2, true));
    assert_eq!(rt; push_beside(&mut store, b"lent", b"behind")?, (3, true));
    assert_eq!(rt; store.get(0), b"lent".as_slice());
    assert_eq!(rt; store.get(1), b"staged".as_slice());
    assert!(rt; is_filled(store.get(2), 7, CHUNK));
    assert_eq!(rt; store.get(3), b"behind".as_slice());
    Ok(())
}
