//! Where a node sends what is for a client.

ghost use Rattle.std.specs.Prelude.{◌≡◌, option_map};
ghost use Rattle.mesh_base.specs.declared.address.Mac.{Mac};
ghost use Rattle.mesh_model.specs.Knowledge.Addressee.{addressee, best_holder, marked_way, table_reason, table_way, way_to};
ghost use Rattle.mesh_model.specs.Knowledge.Known.{Knowledge};
ghost use Rattle.mesh_model.specs.Routes.BestRoute.{better};
ghost use Rattle.node_ground.specs.KnowledgeStands.{KnowledgeStands};
ghost use Rattle.node_ground.specs.Ways.{way};

use crate::knowledge::NodeKnowledge;
use mesh_algo::Algo;
use mesh_base::{Key, Mac, Millis, Reason};

/// An originator to which something is sent, the neighbour to it, and why.
#[derive(Clone, Copy, Debug)]
pub struct Way {
    pub orig: Mac,
    pub next: Mac,
    pub reason: Reason,
}

impl<A: Algo> NodeKnowledge<A> {
    /// Where what is for a client is sent, if anywhere.
    pub fn addressee(&self, now: Millis, key: Key) -> Option<Way>
        ensures { (me : Mac) (known : Knowledge) → KnowledgeStands A.stands self.now me known →
            option_map way result ≡ addressee (A.queries me) known now key }
    {
        match self.marked_way(now, key) {
            Some(way) => Some(way),
            None => self.table_way(now, key),
        }
    }

    // The way to the target of a client's mark.
    fn marked_way(&self, now: Millis, key: Key) -> Option<Way>
        ensures { (me : Mac) (known : Knowledge) → KnowledgeStands A.stands self.now me known →
            option_map way result ≡ marked_way (A.queries me) known now key }
    {
        let target = self.sync.mark_of(now, key)?;
        self.way_to(now, Reason::Roam, target)
    }

    // The way by the tables.
    fn table_way(&self, now: Millis, key: Key) -> Option<Way>
        ensures { (me : Mac) (known : Knowledge) → KnowledgeStands A.stands self.now me known →
            option_map way result ≡ table_way (A.queries me) known now key }
    {
        let orig = self.best_holder(now, key)?;
        self.way_to(now, self.table_reason(now, orig), orig)
    }

    /// The way to an originator for a reason, where a route leads to it.
    pub fn way_to(&self, now: Millis, reason: Reason, orig: Mac) -> Option<Way>
        ensures { (me : Mac) (known : Knowledge) → KnowledgeStands A.stands self.now me known →
            option_map way result ≡ way_to (A.queries me) known now reason orig }
    {
        let next = self.algo.route(now, orig)?;
        Some(Way { orig, next, reason })
    }

    // Why something is sent to an originator whose table has its client.
    fn table_reason(&self, now: Millis, orig: Mac) -> Reason
        ensures { (me : Mac) (known : Knowledge) → KnowledgeStands A.stands self.now me known →
            result ≡ table_reason (A.queries me) known now orig }
    {
        if !self.algo.live(now, orig) {
            return Reason::Old;
        }
        if self.globals.is_ok(orig) {
            Reason::Table
        } else {
            Reason::Old
        }
    }

    // The originator of greatest metric of those that are live and whose held tables have a client.
    fn best_holder(&self, now: Millis, key: Key) -> Option<Mac>
        ensures { (me : Mac) (known : Knowledge) → KnowledgeStands A.stands self.now me known →
            result ≡ best_holder (A.queries me) known now key }
    {
        let mut best = None;
        for i in 0..self.globals.len() {
            let Some(orig) = self.globals.holder(key, i) else {
                return best;
            };
            if self.algo.live(now, orig) {
                best = self.better(now, orig, best);
            }
        }
        best
    }

    // The better of an originator and what is best of others.
    fn better(&self, now: Millis, orig: Mac, best: Option<Mac>) -> Option<Mac>
        ensures { (me : Mac) (known : Knowledge) → KnowledgeStands A.stands self.now me known →
            let metric = (A.queries me).metric known.routes now in
            result ≡ better metric orig best }
    {
        let metric = self.algo.metric(now, orig);
        let Some(other) = best else {
            return (metric > 0).then_some(orig);
        };
        let other_metric = self.algo.metric(now, other);
        let tie = other_metric == metric && orig.cmp(&other).is_lt();
        if other_metric < metric || tie {
            Some(orig)
        } else {
            Some(other)
        }
    }
}
