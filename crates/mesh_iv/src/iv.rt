ghost use Rattle.std.specs.Prelude.{◌≡◌, ◌≤◌, [], is_some, option_map};
ghost use Rattle.mesh_base.specs.declared.address.Mac.{Mac};
ghost use Rattle.mesh_model.specs.Routes.AlgorithmIv.{iv_life};
ghost use Rattle.mesh_model.specs.Routes.Hearings.{heard};
ghost use Rattle.mesh_model.specs.Routes.Quality.{average_quality, receive_quality, echo_quality, echoes_from};
ghost use Rattle.mesh_model.specs.Routes.RouteLog.{RouteLog};
ghost use Rattle.mesh_algo.specs.LifeRows.{life_row};
ghost use Rattle.mesh_algo.specs.Walk.{best_in};
ghost use Rattle.mesh_iv.specs.Answers.{count_of};
ghost use Rattle.mesh_iv.specs.Origs.{row_of_life};
ghost use Rattle.mesh_iv.specs.Tables.{StandsFor, path_at};

use crate::guesses::Guesses;
use crate::path::Path;
use crate::row::{Orig, best_kept, life_in};
use indexmap::IndexMap;
use mesh_algo::table::row_near;
use mesh_algo::{Best, Life, Pair};
use mesh_base::{Mac, Millis};
use std::alloc::Global;
use std::marker::Model;

/// Algorithm IV at the node of an address. Memory grows with originators times neighbours.
#[derive(Debug, Drop)]
pub struct Iv {
    /// The node's own address.
    pub(crate) me: Mac,
    /// The number of its last OGM.
    pub(crate) sent: u32,
    /// A row for each originator, in the order of addresses.
    pub(crate) origs: IndexMap<Mac, Orig>,
    /// A row for each originator and neighbour, in their order; under the own address those of
    /// echoes.
    pub(crate) paths: IndexMap<Pair, Path>,
    /// Where rows stood last.
    pub(crate) guesses: Guesses,
}

impl Model for Iv {
    ghost use Rattle.mesh_iv.specs.Origs.{bests_of, lives_of};
    ghost use Rattle.mesh_iv.specs.Tables.{Tables};

    ghost Value = { Tables };

    ghost view = { λ iv. record {
      me = iv.me;
      sent = iv.sent;
      lives = lives_of iv.origs.entries;
      paths = iv.paths.entries;
      bests = bests_of iv.origs.entries;
    } };
}

impl Iv {
    /// The algorithm at a node that has heard nothing.
    pub fn new(alloc: Global, me: Mac) -> Iv
        ensures { StandsFor me result [] }
    {
        Iv {
            me,
            sent: 0,
            origs: IndexMap::new(alloc),
            paths: IndexMap::new(alloc),
            guesses: Guesses::new(),
        }
    }

    // The life of an originator.
    #[inline(always)]
    pub(crate) fn life(&self, now: Millis, orig: Mac) -> Option<Life>
        ensures { (me : Mac) (log : RouteLog) → StandsFor me self.now log →
            result ≡ life_row (iv_life me log now orig) }
    {
        life_in(&self.orig(now, orig))
    }

    // The row of an originator, if it is live.
    #[inline(always)]
    fn orig(&self, now: Millis, orig: Mac) -> Option<Orig>
        ensures { (me : Mac) (log : RouteLog) → StandsFor me self.now log →
            result ≡ row_of_life (iv_life me log now orig) }
    {
        self.orig_near(self.guesses.of(orig).life as usize, now, orig)
    }

    // The row of an originator, if it is live, which may stand at a place.
    #[inline(always)]
    pub(crate) fn orig_near(&self, near: usize, now: Millis, orig: Mac) -> Option<Orig>
        ensures { (me : Mac) (log : RouteLog) → StandsFor me self.now log →
            result ≡ row_of_life (iv_life me log now orig) }
    {
        row_near(&self.origs, near, orig)?.at(now)
    }

    // The row of an originator and a neighbour, which may stand at a place.
    #[inline(always)]
    pub(crate) fn path_near(&self, near: usize, pair: Pair) -> Option<Path>
        ensures { (me : Mac) (log : RouteLog) → StandsFor me self.now log →
            result ≡ path_at me (heard me log) (λ k. echoes_from me k log) pair }
    {
        row_near(&self.paths, near, pair)
    }

    // How many of the last numbers of a neighbour were heard from itself.
    #[inline(always)]
    pub(crate) fn receive_quality(&self, now: Millis, k: Mac) -> u32
        ensures quality { (me : Mac) (log : RouteLog) → StandsFor me self.now log →
            result ≡ receive_quality now k (heard me log) }
        ensures few { result ≤ 64 }
    {
        let Some(life) = self.life(now, k) else {
            return 0;
        };
        let near = self.guesses.of(k).own as usize;
        count(
            &self.path_near(near, Pair { orig: k, from: k }),
            life.newest,
        )
    }

    // How many of the own last numbers came back from a neighbour.
    #[inline(always)]
    pub(crate) fn echo_quality(&self, k: Mac) -> u32
        ensures { (me : Mac) (log : RouteLog) → StandsFor me self.now log →
            result ≡ echo_quality me k log }
    {
        let pair = Pair {
            orig: self.me,
            from: k,
        };
        let near = self.guesses.of(k).echo as usize;
        count(&self.path_near(near, pair), self.sent)
    }

    // The best neighbour to an originator.
    pub(crate) fn best(&self, now: Millis, orig: Mac) -> Option<Best>
        ensures { (me : Mac) (log : RouteLog) → StandsFor me self.now log →
            let alive = iv_life me log now orig in
            result ≡ best_in (average_quality alive) alive }
    {
        best_kept(&self.orig(now, orig))
    }
}

// How many numbers of a row are among the last up to a top.
fn count(path: &Option<Path>, top: u32) -> u32
    ensures counted { result ≡ count_of top path.now }
    ensures few { result ≤ 64 }
{
    match path {
        None => 0,
        Some(path) => path.heard.count_to(top),
    }
}
