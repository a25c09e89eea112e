ghost use Rattle.std.specs.Prelude.{◌≡◌};
ghost use Rattle.mesh_v.specs.Writing.{pair_of};

use mesh_algo::Pair;
use mesh_base::{Mac, Millis};

/// An OGM that came from a neighbour over a link of a throughput, 0 where there is no such link.
#[derive(Clone, Copy, Debug)]
pub(crate) struct OgmCame {
    pub(crate) moment: Millis,
    pub(crate) from: Mac,
    pub(crate) link: u32,
    pub(crate) ttl: u8,
    pub(crate) flags: u8,
    pub(crate) seq: u32,
    pub(crate) orig: Mac,
    pub(crate) throughput: u32,
}

impl OgmCame {
    /// The originator and the neighbour.
    pub(crate) fn pair(&self) -> Pair
        ensures { result ≡ pair_of self.now }
    {
        Pair {
            orig: self.orig,
            from: self.from,
        }
    }
}
