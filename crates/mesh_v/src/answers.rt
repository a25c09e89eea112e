ghost use Rattle.std.specs.Prelude.{◌≡◌, ◌↔◌, ◌≤◌, ℕ, false, ◌∷◌, length, slice_get, Option, Some, IfOk, OnOk, OnErr, IsNone, Ok, if◌then◌else◌};
ghost use Rattle.mesh_base.specs.declared.address.Mac.{Mac};
ghost use Rattle.mesh_model.specs.declared.packet.Head.{Head};
ghost use Rattle.mesh_model.specs.Routes.AlgorithmV.{v_life, v_queries, v_score};
ghost use Rattle.mesh_model.specs.Routes.BestRoute.{orig_row};
ghost use Rattle.mesh_model.specs.Routes.Neighbours.{last_elp, row_by_elp};
ghost use Rattle.mesh_model.specs.Routes.Queries.{unheard};
ghost use Rattle.mesh_model.specs.Routes.RouteLog.{RouteLog, OwnTick, HeadCame, MayTick};
ghost use Rattle.mesh_v.specs.Tables.{StandsFor};

use crate::ogm::OgmCame;
use crate::row::elp_in;
use crate::v::V;
use mesh_algo::hearing::{FIRST_TTL, UNHEARD};
use mesh_algo::{Algo, Beats, Head, Hearing, LinkRow, OrigRow};
use mesh_base::{Mac, Millis, NoMemory};
use std::alloc::Global;

/// The time between two ELPs as each tells it, in milliseconds.
const ELP_INTERVAL: u32 = 500;

/// The throughput that an own OGM tells, in 100 kbit/s.
const FULL_THROUGHPUT: u32 = u32::MAX;

impl Algo for V {
    ghost use Rattle.std.specs.Prelude.{true};
    ghost use Rattle.mesh_model.specs.Routes.AlgorithmV.{v_queries};
    ghost use Rattle.mesh_algo.proofs.VLaws.{is_heard, v_routes, v_live_routes, v_ogms, v_ogm_heads, v_elps, v_elp_heads, v_other_unheard, v_other_kinds};
    ghost use Rattle.mesh_v.specs.Tables.{StandsFor};

    ghost queries = { v_queries };

    ghost hears = { is_heard };

    ghost sends_elps = { true };

    ghost stands = { λ v me log. StandsFor me v log };

    ghost routes = { v_routes };

    ghost live_routes = { v_live_routes };

    ghost ogms = { v_ogms };

    ghost ogm_heads = { v_ogm_heads };

    ghost elps = { v_elps };

    ghost elp_heads = { v_elp_heads };

    ghost other_unheard = { v_other_unheard };

    ghost other_kinds = { v_other_kinds };

    fn tick(&mut self, _now: Millis, index: u64) -> Beats {
        self.elps += 1;
        let elp = Head::Elp {
            orig: self.me,
            seq: self.elps,
            interval: ELP_INTERVAL,
        };
        if index % 2 != 0 {
            return Beats {
                elp: Some(elp),
                ogm: None,
            };
        }
        self.ogms += 1;
        let ogm = Head::Ogm2 {
            ttl: FIRST_TTL,
            flags: 0,
            seq: self.ogms,
            orig: self.me,
            throughput: FULL_THROUGHPUT,
        };
        Beats {
            elp: Some(elp),
            ogm: Some(ogm),
        }
    }

    fn hear(&mut self, now: Millis, from: Mac, tp: u32, head: &Head) -> Result<Hearing, NoMemory> {
        match *head {
            Head::Elp { orig, .. } => {
                self.hear_elp(now, from, tp, orig)?;
                Ok(UNHEARD)
            }
            Head::Ogm2 {
                ttl,
                flags,
                seq,
                orig,
                throughput,
            } => {
                let ogm = OgmCame {
                    moment: now,
                    from,
                    link: tp,
                    ttl,
                    flags,
                    seq,
                    orig,
                    throughput,
                };
                let hearing = self.hear_ogm(&ogm)?;
                Ok(hearing)
            }
            Head::IvOgm { .. }
            | Head::Bcast { .. }
            | Head::Unicast { .. }
            | Head::Frag { .. }
            | Head::Unicast4 { .. }
            | Head::Icmp { .. }
            | Head::Utvlv { .. } => Ok(UNHEARD),
        }
    }

    fn restart(&mut self) {
        self.ogms = 0;
        self.elps = 0;
        self.origs.clear();
        self.paths.clear();
    }

    fn metric(&self, now: Millis, orig: Mac) -> u32 {
        self.best(now, orig).map_or(0, |best| best.score)
    }

    fn route(&self, now: Millis, orig: Mac) -> Option<Mac> {
        self.best(now, orig).map(|best| best.from)
    }

    fn live(&self, now: Millis, orig: Mac) -> bool {
        self.life(now, orig).is_some()
    }

    fn orig_at(&self, now: Millis, i: usize) -> Option<OrigRow> {
        self.origs
            .keys()
            .filter_map(|orig| self.orig_row(now, *orig))
            .nth(i)
    }

    fn originators(&self, alloc: Global, now: Millis) -> Result<Vec<OrigRow>, NoMemory> {
        let rows = self
            .origs
            .keys()
            .filter_map(|orig| self.orig_row(now, *orig))
            .collect(alloc)?;
        Ok(rows)
    }

    fn link_at(&self, now: Millis, i: usize) -> Option<LinkRow> {
        self.origs
            .keys()
            .filter_map(|k| self.link_row(now, *k))
            .nth(i)
    }
}

impl V {
    // The row of a live originator.
    fn orig_row(&self, now: Millis, orig: Mac) -> Option<OrigRow>
        ensures { (me : Mac) (log : RouteLog) → StandsFor me self.now log →
            let alive = v_life me log now orig in
            result ≡ orig_row (v_score log now alive) now orig alive }
    {
        let life = self.life(now, orig)?;
        let row = OrigRow {
            orig,
            seq: life.newest,
            seen: now.saturating_sub(life.last),
            next: self.route(now, orig),
            metric: self.metric(now, orig),
        };
        Some(row)
    }

    // The row of a neighbour that is up.
    fn link_row(&self, now: Millis, k: Mac) -> Option<LinkRow>
        ensures { (me : Mac) (log : RouteLog) → StandsFor me self.now log →
            result ≡ row_by_elp now k (last_elp k log) }
    {
        let elp = elp_in(&self.orig(k))?;
        if !elp.is_young(now) {
            return None;
        }
        let row = LinkRow::V {
            neigh: k,
            tp: elp.throughput,
            seen: now.saturating_sub(elp.moment),
        };
        Some(row)
    }
}
