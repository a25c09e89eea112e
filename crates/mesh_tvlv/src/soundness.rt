//! Whether containers can be read to their end.

ghost use Rattle.std.specs.Prelude.{◌≡◌};
ghost use Rattle.mesh_model.specs.Packets.Contents.{is_long_enough, flaw_of};
ghost use Rattle.mesh_tvlv.specs.Walk.{seen};

use crate::bodies::{read_gw, read_mcast, read_roam};
use crate::layout::{GATEWAY, MULTICAST, MULTICAST_VERSION, ROAMING, TT, TT_PART_VERSION, VERSION};
use crate::translation::{read_tt, read_tt_part};
use crate::walk::{Container, TvlvIter};
use mesh_model::TvlvErr;

/// Whether a container is long enough for its type. One of another type or version is.
pub fn is_long_enough(container: &Container<'_>) -> bool
    ensures { result ≡ is_long_enough (seen container.now) }
{
    match (container.kind, container.version) {
        (GATEWAY, VERSION) => read_gw(container.body).is_ok(),
        (TT, VERSION) => read_tt(container.body).is_ok(),
        (TT, TT_PART_VERSION) => read_tt_part(container.body).is_ok(),
        (ROAMING, VERSION) => read_roam(container.body).is_ok(),
        (MULTICAST, MULTICAST_VERSION) => read_mcast(container.body).is_ok(),
        _ => true,
    }
}

/// Why these containers can't be read to their end: the first that is too short for its type, or
/// else a cut; `None` where they can.
#[inline(always)]
pub fn first_flaw(bytes: &[u8]) -> Option<TvlvErr>
    ensures { result ≡ flaw_of bytes.now }
{
    let mut walk = TvlvIter::new(bytes);
    while let Some(next) = walk.next() {
        let container = match next {
            Ok(container) => container,
            Err(cut) => return Some(cut),
        };
        if !is_long_enough(&container) {
            return Some(TvlvErr::BadLength {
                kind: container.kind,
                len: container.body.len(),
            });
        }
    }
    None
}
