ghost use Rattle.std.specs.Prelude.{◌≡◌, []};
ghost use Rattle.mesh_base.specs.declared.address.Mac.{Mac};
ghost use Rattle.mesh_model.specs.Routes.AlgorithmV.{v_life, v_score};
ghost use Rattle.mesh_model.specs.Routes.HearingsV.{heard_v};
ghost use Rattle.mesh_model.specs.Routes.Life.{of};
ghost use Rattle.mesh_model.specs.Routes.RouteLog.{RouteLog};
ghost use Rattle.mesh_algo.specs.LifeRows.{latest, life_row};
ghost use Rattle.mesh_algo.specs.Walk.{best_in};
ghost use Rattle.mesh_v.specs.Rows.{path_row};
ghost use Rattle.mesh_v.specs.Tables.{StandsFor, orig_at};

use crate::best::best_of;
use crate::path::Path;
use crate::row::{Orig, life_in};
use indexmap::IndexMap;
use mesh_algo::table::row_near;
use mesh_algo::{Best, Life, Pair};
use mesh_base::{Mac, Millis};
use std::alloc::Global;
use std::marker::Model;

/// Algorithm V at the node of an address. Memory grows with originators times neighbours.
#[derive(Debug, Drop)]
pub struct V {
    /// The node's own address.
    pub(crate) me: Mac,
    /// The number of its last OGM.
    pub(crate) ogms: u32,
    /// The number of its last ELP.
    pub(crate) elps: u32,
    /// A row for each originator or neighbour, in the order of addresses.
    pub(crate) origs: IndexMap<Mac, Orig>,
    /// A row for each originator and neighbour, in their order.
    pub(crate) paths: IndexMap<Pair, Path>,
}

impl Model for V {
    ghost use Rattle.mesh_v.specs.Tables.{Tables};

    ghost Value = { Tables };

    ghost view = { λ v. record {
      me = v.me;
      ogms = v.ogms;
      elps = v.elps;
      origs = v.origs.entries;
      paths = v.paths.entries;
    } };
}

impl V {
    /// The algorithm at a node that has heard nothing.
    pub fn new(alloc: Global, me: Mac) -> V
        ensures { StandsFor me result [] }
    {
        V {
            me,
            ogms: 0,
            elps: 0,
            origs: IndexMap::new(alloc),
            paths: IndexMap::new(alloc),
        }
    }

    // The row of an originator.
    pub(crate) fn orig(&self, orig: Mac) -> Option<Orig>
        ensures { (me : Mac) (log : RouteLog) → StandsFor me self.now log →
            result ≡ orig_at (heard_v me log) log orig }
    {
        self.origs.get(&orig).copied()
    }

    // The row of an originator, which may stand at a place.
    pub(crate) fn orig_near(&self, near: usize, orig: Mac) -> Option<Orig>
        ensures { (me : Mac) (log : RouteLog) → StandsFor me self.now log →
            result ≡ orig_at (heard_v me log) log orig }
    {
        row_near(&self.origs, near, orig)
    }

    // The life of an originator.
    pub(crate) fn life(&self, now: Millis, orig: Mac) -> Option<Life>
        ensures { (me : Mac) (log : RouteLog) → StandsFor me self.now log →
            result ≡ life_row (v_life me log now orig) }
    {
        life_in(&self.orig(orig))?.at(now)
    }

    // The row of an originator and a neighbour, which may stand at a place.
    pub(crate) fn path_near(&self, near: usize, pair: Pair) -> Option<Path>
        ensures { (me : Mac) (log : RouteLog) → StandsFor me self.now log →
            result ≡ path_row pair.from (latest (of pair.orig (heard_v me log))) }
    {
        row_near(&self.paths, near, pair)
    }

    // The best neighbour to an originator.
    pub(crate) fn best(&self, now: Millis, orig: Mac) -> Option<Best>
        ensures { (me : Mac) (log : RouteLog) → StandsFor me self.now log →
            let alive = v_life me log now orig in
            result ≡ best_in (v_score log now alive) alive }
    {
        let life = self.life(now, orig)?;
        best_of(&self.origs, &self.paths, now, orig, life.newest)
    }
}
