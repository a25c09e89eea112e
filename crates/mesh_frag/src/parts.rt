ghost use Rattle.std.specs.Prelude.{◌≡◌, ◌-◌, ◌++◌, ◌∷◌, [], nat_eq, length, take, is_some, IfOk, None, option_and_then, OnErr, OnOk};
ghost use Rattle.std.specs.Map.{lookup};
ghost use Rattle.mesh_model.specs.Fragments.Assembly.{bytes_below, whole_of};

use indexmap::IndexMap;
use mesh_base::{Bytes, NoMemory};
use std::alloc::Global;
use std::marker::Model;

/// How many fragments a packet has at most.
pub const MOST_FRAGMENTS: u8 = 16;

/// The parts of a packet, in the order in which they came.
#[derive(Debug, Drop)]
pub(crate) struct Parts {
    /// The tail of each place.
    tails: IndexMap<u8, Bytes>,
}

impl Model for Parts {
    ghost use Rattle.std.specs.Prelude.{ℕ, List};
    ghost use Rattle.mesh_frag.specs.Kept.{ArePlaces};

    ghost Value = { List (ℕ × List ℕ) };

    ghost view = { λ p. p.tails.entries };

    ghost invariant = { λ p. ArePlaces p.tails.entries };
}

impl Parts {
    /// No parts.
    pub(crate) fn new(alloc: Global) -> Parts
        ensures { result ≡ [] }
    {
        Parts {
            tails: IndexMap::new(alloc),
        }
    }

    /// Whether a part of this place came.
    pub(crate) fn has(&self, place: u8) -> bool
        ensures { result ≡ is_some (lookup (nat_eq place) self.now) }
    {
        self.tails.contains_key(&place)
    }

    /// How many places came.
    pub(crate) fn len(&self) -> u16
        ensures { result ≡ length self.now }
    {
        self.tails.len() as u16
    }

    /// Adds the part of a place of which none came.
    pub(crate) fn add(&mut self, place: u8, tail: &[u8]) -> Result<(), NoMemory>
        requires { lookup (nat_eq place) self.old ≡ None }
        ensures ok { OnOk result (self.new ≡ self.old ++ (place, tail.now) ∷ []) }
        ensures err { OnErr result (self.new ≡ self.old) }
    {
        let copy = Bytes::from_slice(*self.tails.allocator(), tail)?;
        self.tails.insert(place, copy)?;
        Ok(())
    }

    /// Drops the part that came last, if any did.
    pub(crate) fn drop_last(&mut self)
        ensures { self.new ≡ take (length self.old - 1) self.old }
    {
        self.tails.pop();
    }

    /// The packet of this length that these parts make whole, if they do.
    pub(crate) fn whole(&self, total: u16) -> Result<Option<Bytes>, NoMemory>
        ensures { IfOk result (λ bytes. bytes ≡ whole_of total self.now) }
    {
        match self.count_of(total) {
            Some(count) => self.first(count),
            None => Ok(None),
        }
    }

    // How many of the first places make a packet of this length, if some do.
    fn count_of(&self, total: u16) -> Option<u8>
        ensures { whole_of total self.now ≡ option_and_then (bytes_below self.now) result }
    {
        let mut left = usize::from(total);
        for place in 0..MOST_FRAGMENTS {
            let tail = self.tails.get(&place)?;
            left = left.checked_sub(tail.len())?;
            if left == 0 {
                return Some(place + 1);
            }
        }
        None
    }

    // The tails of the first places, so many, one behind the other; `None` where one is missing.
    fn first(&self, count: u8) -> Result<Option<Bytes>, NoMemory>
        ensures { IfOk result (λ bytes. bytes ≡ bytes_below self.now count) }
    {
        let mut bytes = Vec::new(*self.tails.allocator());
        for place in 0..count {
            match self.tails.get(&place) {
                Some(tail) => bytes.extend_from_slice(tail.as_slice())?,
                None => return Ok(None),
            }
        }
        Ok(Some(Bytes::from_vec(bytes)))
    }
}
