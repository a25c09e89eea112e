//! Bringing what grew to the older chunks, before a frame is lent.
ghost use Rattle.std.specs.Prelude.{◌≡◌, []};
ghost use Rattle.frame_store.specs.Frames.{chunks, spare_bytes};
ghost use Rattle.frame_store.specs.Store.{IsReady, IsStore};

use crate::grown::Grown;
use crate::older::Older;
use std::mem;

/// Brings what is staged and the younger chunks to the older ones. It takes no memory.
pub(crate) fn settle(older: &mut Older, grown: &mut Grown)
    requires stands { IsStore older.old grown.old }
    requires ready { IsReady older.old grown.old }
    ensures stands { IsStore older.new grown.new }
    ensures ready { IsReady older.new grown.new }
    ensures staged { grown.new.staged.bytes ≡ [] }
    ensures younger { grown.new.younger.items ≡ [] }
    ensures chunks { chunks older.new grown.new ≡ chunks older.old grown.old }
    ensures index { grown.new.index ≡ grown.old.index }
    ensures spare { spare_bytes older.new grown.new ≡ spare_bytes older.old grown.old }
{
    older.last.append(grown.staged.filled());
    grown.staged.clear();
    if let Some(youngest) = grown.younger.pop() {
        let full = mem::replace(&mut older.last, youngest);
        older.closed.push_reserved(full);
        older.closed.append(&mut grown.younger).unwrap();
    }
}
