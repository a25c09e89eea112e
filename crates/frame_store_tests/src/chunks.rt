ghost use Rattle.frame_store.specs.Store.{IsStore};

use frame_store::FrameStore;
use std::alloc::Global;
use std::test::Fail;

/// The bytes of a chunk.
pub const CHUNK: usize = 1_048_576;

/// Pushes a frame of so many bytes, all of them this one, and answers its place.
pub fn push_filled(
    store: &mut FrameStore,
    alloc: Global,
    byte: u8,
    size: usize,
) -> Result<u32, Fail>
    requires { IsStore store.old.older store.old.grown }
    ensures { IsStore store.new.older store.new.grown }
{
    let bytes = vec![in alloc; byte; size]?;
    Ok(store.push(&bytes)?)
}

/// Whether a frame has so many bytes, all of them this one.
pub fn is_filled(frame: &[u8], byte: u8, size: usize) -> bool {
    frame.len() == size && frame.iter().all(|b| *b == byte)
}

#[test]
fn frames_at_the_ends_of_chunks_are_whole(rt: HostRuntime) -> Result<(), Fail> {
    let mut store = FrameStore::new(rt.alloc());
    // One that ends a chunk to the byte, one behind it, one that is longer than a chunk, one of a
    // chunk's size, one of no bytes, and one that doesn't fit behind another.
    let sizes = [1_000_000, 48_576, 1, CHUNK + 1, CHUNK, 0, 700_000, 400_000];
    for (place, size) in sizes.iter().enumerate() {
        assert_eq!(rt;
            push_filled(&mut store, rt.alloc(), place as u8, *size)?,
            place as u32
        );
    }
    assert_eq!(rt; (store.len(), store.total()), (8, 4_245_730));
    for (place, size) in sizes.iter().enumerate() {
        assert!(rt; (place as u32) < store.len());
        assert!(rt;
            is_filled(store.get(place as u32), place as u8, *size),
            "frame {place}"
        );
    }
    Ok(())
}

#[test]
fn a_frame_that_a_reserve_covers_may_begin_a_chunk(rt: HostRuntime) -> Result<(), Fail> {
    let mut store = FrameStore::new(rt.alloc());
    push_filled(&mut store, rt.alloc(), 1, CHUNK - 100)?;
    store.reserve(2, 300)?;
    push_filled(&mut store, rt.alloc(), 2, 101)?;
    push_filled(&mut store, rt.alloc(), 3, 199)?;
    assert_eq!(rt; (store.len(), store.total()), (3, CHUNK as u64 + 200));
    assert!(rt; is_filled(store.get(0), 1, CHUNK - 100));
    assert!(rt; is_filled(store.get(1), 2, 101));
    assert!(rt; is_filled(store.get(2), 3, 199));
    Ok(())
}
