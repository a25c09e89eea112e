ghost use Rattle.std.specs.Prelude.{◌≡◌, nat_le, ◌+◌};
ghost use Rattle.mesh_model.specs.Routes.Ogm.{passes, is_echo};
ghost use Rattle.mesh_iv.specs.Came.{ogm_in};
ghost use Rattle.mesh_iv.specs.Writing.{pair_of};

use mesh_algo::Pair;
use mesh_base::{Mac, Millis};

/// The flag of an OGM whose sender isn't the best next hop to the originator.
pub(crate) const NOT_BEST_NEXT_HOP: u8 = 1;
/// The flag of an OGM that its sender heard from the originator itself.
pub(crate) const DIRECTLINK: u8 = 4;

/// An OGM that came from a neighbour.
#[derive(Clone, Copy, Debug)]
pub(crate) struct OgmCame {
    pub(crate) moment: Millis,
    pub(crate) from: Mac,
    pub(crate) ttl: u8,
    pub(crate) flags: u8,
    pub(crate) seq: u32,
    pub(crate) orig: Mac,
    pub(crate) prev: Mac,
    pub(crate) tq: u8,
}

impl OgmCame {
    /// The originator and the neighbour.
    pub(crate) fn pair(&self) -> Pair
        ensures { result ≡ pair_of self.now }
    {
        Pair {
            orig: self.orig,
            from: self.from,
        }
    }

    /// Whether it is heard at the node of this address.
    pub(crate) fn passes(&self, me: Mac) -> bool
        ensures { result ≡ passes me (ogm_in self.now) }
    {
        if self.orig == me || self.prev == me {
            return false;
        }
        self.flags & NOT_BEST_NEXT_HOP == 0 && self.tq > 0
    }

    /// Whether it is an echo at the node of this address and this last number.
    pub(crate) fn is_echo(&self, me: Mac, last: u32) -> bool
        ensures { result ≡ is_echo me last (ogm_in self.now) }
    {
        if self.orig != me || self.flags & DIRECTLINK == 0 {
            return false;
        }
        self.seq > 0 && self.seq <= last
    }
}
