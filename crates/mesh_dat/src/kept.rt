ghost use Rattle.std.specs.Prelude.{◌≡◌, option_map};
ghost use Rattle.mesh_model.specs.Services.ArpTable.{if_known, row_of_learned};
ghost use Rattle.mesh_dat.specs.Cache.{learned_of};

use mesh_base::{Mac, Millis};
use mesh_model::{ArpRow, Pair};

/// How long a pair is known, in milliseconds.
const PAIR_AGE: Millis = 300_000;

/// What was learned last of a pair.
#[derive(Clone, Copy, Debug)]
pub(crate) struct Kept {
    pub(crate) moment: Millis,
    pub(crate) mac: Mac,
}

impl Kept {
    /// The row of the pair, while it is known.
    pub(crate) fn row(self, now: Millis, pair: Pair) -> Option<ArpRow>
        ensures { result ≡ option_map (row_of_learned now) (if_known now (learned_of pair self)) }
    {
        let age = now.saturating_sub(self.moment);
        let row = ArpRow {
            ip: pair.ip,
            vid: pair.vid,
            mac: self.mac,
            age,
        };
        (age < PAIR_AGE).then_some(row)
    }
}
