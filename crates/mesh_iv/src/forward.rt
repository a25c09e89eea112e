ghost use Rattle.std.specs.Prelude.{◌≡◌};
ghost use Rattle.mesh_algo.specs.LifeRows.{forwarded_by};
ghost use Rattle.mesh_iv.specs.Hears.{flags_on, goes_on, head_on};

use crate::ogm::{DIRECTLINK, NOT_BEST_NEXT_HOP, OgmCame};
use mesh_algo::life::forwarded_of;
use mesh_algo::{Head, Life};

/// Whether an OGM is sent on, whose best neighbour then is `over` its sender.
pub(crate) fn goes_on(ogm: &OgmCame, value: u8, life: &Option<Life>, over: bool) -> bool
    ensures { result ≡ goes_on ogm.now value (forwarded_by life.now) over }
{
    if ogm.ttl <= 1 {
        return false;
    }
    if ogm.from == ogm.orig {
        return true;
    }
    if value == 0 || !over {
        return false;
    }
    !forwarded_of(life).has(ogm.seq)
}

// The flags with which an OGM is sent on.
fn flags_on(ogm: &OgmCame, over: bool) -> u8
    ensures { result ≡ flags_on ogm.now over }
{
    if ogm.from != ogm.orig {
        return 0;
    }
    if over {
        DIRECTLINK
    } else {
        DIRECTLINK + NOT_BEST_NEXT_HOP
    }
}

/// The head with which an OGM is sent on: a hop less, and a part of 30 in 255 less of the value.
pub(crate) fn head_on(ogm: &OgmCame, value: u8, over: bool) -> Head
    ensures { result ≡ head_on ogm.now value over }
{
    Head::IvOgm {
        ttl: ogm.ttl.saturating_sub(1),
        flags: flags_on(ogm, over),
        seq: ogm.seq,
        orig: ogm.orig,
        prev: ogm.from,
        tq: (u32::from(value) * 225 / 255) as u8,
    }
}
