ghost use Rattle.std.specs.Prelude.{◌≡◌};
ghost use Rattle.mesh_v.specs.Hears.{head_on};

use crate::ogm::OgmCame;
use mesh_algo::Head;

/// The head with which an OGM is sent on: a hop less, and a part of 30 in 255 less of the value.
pub(crate) fn head_on(ogm: &OgmCame, value: u32) -> Head
    ensures { result ≡ head_on ogm.now value }
{
    Head::Ogm2 {
        ttl: ogm.ttl.saturating_sub(1),
        flags: ogm.flags,
        seq: ogm.seq,
        orig: ogm.orig,
        throughput: (u64::from(value) * 225 / 255) as u32,
    }
}
