ghost use Rattle.std.specs.Prelude.{◌≡◌, ◌↔◌, ◌≤◌, ℕ, false, ◌∷◌, length, slice_get, is_some, option_and_then, Option, Some, IfOk, IfSome, IfNone, OnOk, OnErr, IsNone, Ok};
ghost use Rattle.mesh_base.specs.declared.address.Mac.{Mac};
ghost use Rattle.mesh_model.specs.declared.packet.Head.{Head};
ghost use Rattle.mesh_model.specs.Routes.AlgorithmIv.{iv_beats, iv_life, iv_link, iv_queries};
ghost use Rattle.mesh_model.specs.Routes.BestRoute.{orig_row};
ghost use Rattle.mesh_model.specs.Routes.Ogm.{ogm_of_head};
ghost use Rattle.mesh_model.specs.Routes.Quality.{average_quality};
ghost use Rattle.mesh_model.specs.Routes.Queries.{unheard};
ghost use Rattle.mesh_model.specs.Routes.RouteLog.{RouteLog, OwnTick, HeadCame, MayTick};
ghost use Rattle.mesh_model.specs.Routes.Hearings.{heard};
ghost use Rattle.mesh_model.specs.Routes.Life.{heard_originators};
ghost use Rattle.mesh_iv.specs.Answers.{row_of_orig, row_with};
ghost use Rattle.mesh_iv.specs.Came.{head_of, ogm_in};
ghost use Rattle.mesh_iv.specs.Hears.{IsCame};
ghost use Rattle.mesh_iv.specs.Tables.{StandsFor};

use crate::iv::Iv;
use crate::ogm::OgmCame;
use crate::quality::FULL_QUALITY;
use mesh_algo::hearing::{FIRST_TTL, UNHEARD};
use mesh_algo::{Algo, Beats, Best, Head, Hearing, Life, LinkRow, OrigRow};
use mesh_base::{Mac, Millis, NoMemory};
use std::alloc::Global;

impl Algo for Iv {
    ghost use Rattle.std.specs.Prelude.{false, is_some};
    ghost use Rattle.mesh_model.specs.Routes.AlgorithmIv.{iv_queries};
    ghost use Rattle.mesh_model.specs.Routes.Ogm.{ogm_of_head};
    ghost use Rattle.mesh_algo.proofs.IvLaws.{iv_routes, iv_live_routes, iv_ogms, iv_ogm_heads, iv_elps, iv_elp_heads, iv_other_unheard, iv_other_kinds};
    ghost use Rattle.mesh_iv.specs.Tables.{StandsFor};

    ghost queries = { iv_queries };

    ghost hears = { λ head. is_some (ogm_of_head head) };

    ghost sends_elps = { false };

    ghost stands = { λ iv me log. StandsFor me iv log };

    ghost routes = { iv_routes };

    ghost live_routes = { iv_live_routes };

    ghost ogms = { iv_ogms };

    ghost ogm_heads = { iv_ogm_heads };

    ghost elps = { iv_elps };

    ghost elp_heads = { iv_elp_heads };

    ghost other_unheard = { iv_other_unheard };

    ghost other_kinds = { iv_other_kinds };

    fn tick(&mut self, _now: Millis, index: u64) -> Beats {
        if index % 2 != 0 {
            return Beats {
                elp: None,
                ogm: None,
            };
        }
        self.sent += 1;
        let ogm = Head::IvOgm {
            ttl: FIRST_TTL,
            flags: 0,
            seq: self.sent,
            orig: self.me,
            prev: self.me,
            tq: FULL_QUALITY,
        };
        Beats {
            elp: None,
            ogm: Some(ogm),
        }
    }

    #[inline(always)]
    fn hear(&mut self, now: Millis, from: Mac, _tp: u32, head: &Head) -> Result<Hearing, NoMemory> {
        let Some(ogm) = ogm_came(now, from, head) else {
            return Ok(UNHEARD);
        };
        let hearing = self.hear_ogm(&ogm)?;
        Ok(hearing)
    }

    fn restart(&mut self) {
        self.sent = 0;
        self.origs.clear();
        self.paths.clear();
    }

    fn metric(&self, now: Millis, orig: Mac) -> u32 {
        self.best(now, orig).map_or(0, |best| best.score)
    }

    fn route(&self, now: Millis, orig: Mac) -> Option<Mac> {
        self.best(now, orig).map(|best| best.from)
    }

    fn live(&self, now: Millis, orig: Mac) -> bool {
        self.life(now, orig).is_some()
    }

    fn orig_at(&self, now: Millis, i: usize) -> Option<OrigRow> {
        self.origs
            .keys()
            .filter_map(|orig| self.orig_row(now, *orig))
            .nth(i)
    }

    fn originators(&self, alloc: Global, now: Millis) -> Result<Vec<OrigRow>, NoMemory> {
        let mut rows = Vec::new(alloc);
        rows.reserve(self.origs.len())?;
        for place in 0..self.origs.len() {
            if let Some(row) = self.orig_row_at(place, now) {
                rows.push(row)?;
            }
        }
        Ok(rows)
    }

    fn link_at(&self, now: Millis, i: usize) -> Option<LinkRow> {
        self.origs
            .keys()
            .filter_map(|k| self.link_row(now, *k))
            .nth(i)
    }
}

impl Iv {
    // The row of a live originator.
    fn orig_row(&self, now: Millis, orig: Mac) -> Option<OrigRow>
        ensures { (me : Mac) (log : RouteLog) → StandsFor me self.now log →
            let alive = iv_life me log now orig in
            result ≡ orig_row (average_quality alive) now orig alive }
    {
        self.orig_row_near(self.guesses.of(orig).life as usize, now, orig)
    }

    // The row of the originator at a place, if it is live.
    fn orig_row_at(&self, place: usize, now: Millis) -> Option<OrigRow>
        ensures { (me : Mac) (log : RouteLog) → StandsFor me self.now log →
            result ≡ option_and_then (row_of_orig me log now)
            (slice_get (heard_originators (heard me log)) place) }
    {
        let (orig, _) = self.origs.get_index(place)?;
        self.orig_row_near(place, now, *orig)
    }

    // The row of an originator, if it is live, whose row may stand at a place.
    fn orig_row_near(&self, place: usize, now: Millis, orig: Mac) -> Option<OrigRow>
        ensures { (me : Mac) (log : RouteLog) → StandsFor me self.now log →
            result ≡ row_of_orig me log now orig }
    {
        let row = self.orig_near(place, now, orig)?;
        Some(row_with(now, orig, &row.life, &row.best))
    }

    // The row of a neighbour of which something is received.
    fn link_row(&self, now: Millis, k: Mac) -> Option<LinkRow>
        ensures { (me : Mac) (log : RouteLog) → StandsFor me self.now log →
            result ≡ iv_link me log now k }
    {
        let rq = self.receive_quality(now, k);
        if rq == 0 {
            return None;
        }
        let row = LinkRow::Iv {
            neigh: k,
            rq,
            eq: self.echo_quality(k),
        };
        Some(row)
    }
}

// The OGM of algorithm IV that a head is.
fn ogm_came(moment: Millis, from: Mac, head: &Head) -> Option<OgmCame>
    ensures { IsCame moment from head.now result }
{
    match head {
        Head::IvOgm {
            ttl,
            flags,
            seq,
            orig,
            prev,
            tq,
        } => Some(OgmCame {
            moment,
            from,
            ttl: *ttl,
            flags: *flags,
            seq: *seq,
            orig: *orig,
            prev: *prev,
            tq: *tq,
        }),
        Head::Bcast { .. }
        | Head::Elp { .. }
        | Head::Ogm2 { .. }
        | Head::Unicast { .. }
        | Head::Frag { .. }
        | Head::Unicast4 { .. }
        | Head::Icmp { .. }
        | Head::Utvlv { .. } => None,
    }
}

// The row of an originator of this life, with the best neighbour to it.
fn row_with(now: Millis, orig: Mac, life: &Life, best: &Option<Best>) -> OrigRow
    ensures { result ≡ row_with now orig life.now best.now }
{
    let (next, metric) = match best {
        Some(best) => (Some(best.from), best.score),
        None => (None, 0),
    };
    OrigRow {
        orig,
        seq: life.newest,
        seen: now.saturating_sub(life.last),
        next,
        metric,
    }
}
