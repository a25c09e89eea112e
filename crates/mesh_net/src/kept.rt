ghost use Rattle.std.specs.Prelude.{◌≡◌, ◌++◌, ◌∷◌, [], length, slice_get, Some, None, IfSome, IfNone, OnOk};

use frame_store::FrameStore;
use mesh_base::NoMemory;
use mesh_post::Sending;
use std::alloc::Global;
use std::marker::Model;

/// What was sent before the step under way: the bytes of each sending in a store, and beside them
/// its root.
#[derive(Debug, Drop)]
pub struct Kept {
    store: FrameStore,
    roots: Vec<u32>,
}

impl Model for Kept {
    ghost use Rattle.std.specs.Prelude.{List};
    ghost use Rattle.mesh_post.specs.declared.row.Sending.{Sending};
    ghost use Rattle.mesh_net.specs.Kept.{kept_sendings, IsKept};

    ghost Value = { List Sending };

    ghost view = { λ k. kept_sendings k.store k.roots.items };

    ghost invariant = { λ k. IsKept k.store k.roots.items };
}

impl Kept {
    /// Nothing was sent.
    pub(crate) fn new(alloc: Global) -> Kept
        ensures { result ≡ [] }
    {
        Kept {
            store: FrameStore::new(alloc),
            roots: Vec::new(alloc),
        }
    }

    /// How many sendings there are.
    pub(crate) fn len(&self) -> usize
        ensures { result ≡ length self.now }
    {
        self.roots.len()
    }

    /// The bytes of the sending at a place, and its root.
    pub(crate) fn get(&self, place: u32) -> Option<(&[u8], u64)>
        ensures some { IfSome result (λ found. slice_get self.now place
            ≡ Some (record { root = found.1; bytes = found.0.now })) }
        ensures none { IfNone result (slice_get self.now place ≡ None) }
    {
        let root = *self.roots.get(place as usize)?;
        Some((self.store.get(place), u64::from(root)))
    }

    /// Puts the sendings of a step behind the others, and lets them go but for a vector to spare.
    #[inline(always)]
    pub(crate) fn keep(
        &mut self,
        fresh: &mut Vec<Sending>,
        spare: &mut Vec<u8>,
    ) -> Result<(), NoMemory>
        ensures ok { OnOk result ((self.new ≡ self.old ++ fresh.old.items)
            × (fresh.new.items ≡ [])) }
    {
        // Most steps send nothing.
        if fresh.is_empty() {
            return Ok(());
        }
        self.keep_each(fresh, spare)?;
        Ok(())
    }

    // Puts sendings behind the others one after another, as `keep` does.
    fn keep_each(&mut self, fresh: &mut Vec<Sending>, spare: &mut Vec<u8>) -> Result<(), NoMemory>
        ensures ok { OnOk result ((self.new ≡ self.old ++ fresh.old.items)
            × (fresh.new.items ≡ [])) }
    {
        for sending in fresh.iter() {
            self.push(sending)?;
        }
        if let Some(last) = fresh.pop() {
            *spare = last.bytes.into_vec();
        }
        fresh.clear();
        Ok(())
    }

    // Puts a sending behind the others. A full store would be told as want of memory; the limits on
    // frames and bytes, which are looked at before anything is sent, are met no later than its own.
    // So would a root past 32 bits: it is the index of a tick, and the clock ends before.
    fn push(&mut self, sending: &Sending) -> Result<(), NoMemory>
        ensures { OnOk result (self.new ≡ self.old ++ sending.now ∷ []) }
    {
        let Ok(root) = u32::try_from(sending.root) else {
            return Err(NoMemory);
        };
        self.roots.reserve(1)?;
        match self.store.push(sending.bytes.as_slice()) {
            Ok(_) => {
                self.roots.push_reserved(root);
                Ok(())
            }
            Err(_) => Err(NoMemory),
        }
    }
}
