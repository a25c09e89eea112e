//! The routes that were set, and the loops that came and went since they were looked at last.

ghost use Rattle.std.specs.Prelude.{◌≡◌, ◌↔◌, ℕ, List, [], ◌∷◌, Err, true, IfOk, IsTrue, OnErr, OnOk};
ghost use Rattle.std.specs.List.{best_of};
ghost use Rattle.std.specs.List.Sorted.{IsStrictlySortedBy};
ghost use Rattle.mesh_base.specs.declared.address.Mac.{Mac};
ghost use Rattle.mesh_model.specs.declared.route_line.RoutePair.{RoutePair};
ghost use Rattle.mesh_model.specs.Loops.Reports.{gone_from};
ghost use Rattle.mesh_model.specs.Loops.Routes.{is_least_of, loops_of, pair_order};
ghost use Rattle.mesh_model.specs.Routes.Addresses.{is_smaller};
ghost use Rattle.mesh_loops.specs.declared.failure.WatchErr.TheVariants.{Pairs};
ghost use Rattle.mesh_loops.specs.Changed.{changed_loop, changed_loops, found_from, has_changed, have_changed};
ghost use Rattle.mesh_loops.specs.Walks.{AreAmong, AreNoted, HasMet, IsNoted};
ghost use Rattle.mesh_loops.specs.Watch.{AreKept, PassesPairs, WasSet, WasSettled, WatchCall, WatchStands, lines_at, lines_set, next_at, other, report_of};

use crate::failure::WatchErr;
use crate::report::LoopReport;
use crate::when::When;
use indexmap::{IndexMap, IndexSet};
use mesh_base::{Mac, NoMemory};
use mesh_model::{Loop, LoopList, NodeList, RoutePair};
use std::alloc::Global;
use std::marker::Model;

/// How many pairs may be set.
const PAIRS_LIMIT: usize = 65_536;

/// Of how many pairs the room is kept that were set between two looks.
const FEW_PAIRS: usize = 64;

/// The routes that were set, and which of them were since loops were looked at last.
#[derive(Debug, Drop)]
pub struct Watch {
    alloc: Global,
    /// The next node of each pair that was set.
    routes: IndexMap<RoutePair, Option<Mac>>,
    /// The next node that each pair that was set since then had when loops were looked at last.
    before: IndexMap<RoutePair, Option<Mac>>,
}

impl Model for Watch {
    ghost use Rattle.mesh_loops.specs.Watch.{Kept};

    ghost Value = { Kept };

    ghost view = { λ w. record { routes = w.routes.entries; before = w.before.entries } };
}

impl Watch {
    /// No route is set.
    pub fn new(alloc: Global) -> Watch
        ensures { WatchStands result [] }
    {
        Watch {
            alloc,
            routes: IndexMap::new(alloc),
            before: IndexMap::new(alloc),
        }
    }

    /// Whether the pair of a node and an originator would be one too many.
    pub fn is_full_for(&self, node: Mac, orig: Mac) -> bool
        ensures { (calls : List WatchCall) → WatchStands self.now calls → IsTrue result
            ↔ PassesPairs (lines_set calls) (record { orig = orig; node = node }) }
    {
        let pair = RoutePair { orig, node };
        !self.routes.contains_key(&pair) && self.routes.len() >= PAIRS_LIMIT
    }

    /// Sets the next node on the way from a node to an originator, or that there is none.
    pub fn set(&mut self, node: Mac, orig: Mac, next: Option<Mac>) -> Result<(), WatchErr>
        ensures ok { (calls : List WatchCall) (moment : ℕ) → WatchStands self.old calls →
            OnOk result (WatchStands self.new
            (WasSet (record { moment = moment; node = node; orig = orig; next = next }) ∷ calls)) }

        // Refused exactly where it would be one pair too many, unless memory runs out. Then nothing
        // changes.
        ensures pairs { (calls : List WatchCall) → WatchStands self.old calls →
            (result ≡ Err Pairs)
            ↔ PassesPairs (lines_set calls) (record { orig = orig; node = node }) }
        ensures err { OnErr result (self.new ≡ self.old) }
    {
        if self.is_full_for(node, orig) {
            return Err(WatchErr::Pairs);
        }
        self.note(RoutePair { orig, node }, next)?;
        Ok(())
    }

    /// The loops that are gone and those that are new since loops were looked at last.
    pub fn settle(&mut self) -> Result<LoopReport, NoMemory>
        ensures ok { (calls : List WatchCall) → WatchStands self.old calls →
            OnOk result (WatchStands self.new (WasSettled ∷ calls)) }
        ensures told { (calls : List WatchCall) → WatchStands self.old calls →
            IfOk result (λ report. report ≡ report_of calls) }
        ensures err { OnErr result (self.new ≡ self.old) }
    {
        let gone = self.changed_loops(When::Before)?;
        let fresh = self.changed_loops(When::Now)?;
        self.forget();
        Ok(LoopReport { gone, fresh })
    }

    // Forgets which next nodes pairs had. The room of a few stays, that of many goes: it would be
    // cleared each time.
    fn forget(&mut self)
        ensures routes { self.new.routes ≡ self.old.routes }
        ensures before { self.new.before ≡ [] }
    {
        if self.before.len() <= FEW_PAIRS {
            self.before.clear();
        } else {
            self.before = IndexMap::new(self.alloc);
        }
    }

    // Sets the next node of a pair.
    fn note(&mut self, pair: RoutePair, next: Option<Mac>) -> Result<(), NoMemory>
        ensures ok { (calls : List WatchCall) (moment : ℕ) → WatchStands self.old calls →
            OnOk result (WatchStands self.new
            (WasSet (record { moment = moment; node = pair.node; orig = pair.orig; next = next })
            ∷ calls)) }
        ensures err { OnErr result (self.new ≡ self.old) }
    {
        self.before.reserve(1)?;
        let old = self.routes.insert(pair, next)?;
        if !self.before.contains_key(&pair) {
            self.before.insert(pair, old.flatten()).unwrap();
        }
        Ok(())
    }

    // The next node of a pair.
    fn next(&self, when: When, pair: RoutePair) -> Option<Mac>
        ensures { result ≡ next_at self.now when pair }
    {
        let now = self.routes.get(&pair).copied();
        match when {
            When::Before => self.before.get(&pair).copied().or(now).flatten(),
            When::Now => now.flatten(),
        }
    }

    // Whether the next node of a pair is another than before.
    fn has_changed(&self, pair: RoutePair) -> bool
        ensures { result ≡ has_changed self.now pair }
    {
        self.next(When::Before, pair) != self.next(When::Now, pair)
    }

    // Whether one of some nodes has another next node than before.
    fn have_changed(&self, orig: Mac, nodes: &[Mac]) -> bool
        ensures { result ≡ have_changed self.now orig nodes.now }
    {
        nodes
            .iter()
            .any(|node| self.has_changed(RoutePair { orig, node: *node }))
    }

    // The nodes of the walk from a pair's node until it is back, if it comes back.
    fn walk(&self, when: When, start: RoutePair) -> Result<Option<NodeList>, NoMemory>
        ensures { IfOk result (λ nodes. nodes ≡ found_from self.now when start) }
    {
        let mut nodes = NodeList::new(self.alloc);
        let mut node = start.node;
        for _ in 0..self.routes.len() {
            nodes.push(node)?;
            let pair = RoutePair {
                orig: start.orig,
                node,
            };
            let Some(next) = self.next(when, pair) else {
                return Ok(None);
            };
            if next == start.node {
                return Ok(Some(nodes));
            }
            node = next;
        }
        Ok(None)
    }

    // Adds the least node of the loop of a pair's node, where it is in one.
    fn add_head(
        &self,
        when: When,
        pair: RoutePair,
        heads: &mut IndexSet<RoutePair>,
    ) -> Result<(), NoMemory>
        ensures kept { OnOk result (AreAmong heads.old.keys heads.new.keys) }
        ensures noted { AreKept self.now →
            OnOk result (IsNoted self.now when heads.new.keys pair) }
    {
        if let Some(nodes) = self.walk(when, pair)? {
            heads.insert(RoutePair {
                orig: pair.orig,
                node: least_of(pair.node, nodes.as_slice()),
            })?;
        }
        Ok(())
    }

    // Walks from a pair to where no route leads on, or to where a walk was. Tells where that is if it
    // was this walk itself, which then found a loop.
    fn meet(
        &self,
        when: When,
        start: RoutePair,
        seen: &mut IndexSet<RoutePair>,
    ) -> Result<Option<RoutePair>, NoMemory>
        ensures { (heads : List RoutePair) → AreNoted self.now when heads seen.old.keys →
            IfOk result (HasMet self.now when heads seen.new.keys start) }
    {
        let first = seen.len();
        let mut node = start.node;
        for _ in 0..self.routes.len() {
            let pair = RoutePair {
                orig: start.orig,
                node,
            };
            let (place, is_new) = seen.insert_full(pair)?;
            if !is_new {
                return Ok((first <= place).then_some(pair));
            }
            let Some(next) = self.next(when, pair) else {
                return Ok(None);
            };
            node = next;
        }
        Ok(Some(RoutePair {
            orig: start.orig,
            node,
        }))
    }

    // The same walk where no other one follows, so that nothing tells where it was. In a loop it ends
    // where it was at the last power of two of its steps.
    fn pass(&self, when: When, start: RoutePair) -> Option<RoutePair>
        ensures { (heads seen : List RoutePair) → AreNoted self.now when heads seen →
            HasMet self.now when heads seen start result }
    {
        let mut node = start.node;
        let mut mark = start.node;
        let mut span = 1_usize;
        for step in 0..self.routes.len() {
            let pair = RoutePair {
                orig: start.orig,
                node,
            };
            node = self.next(when, pair)?;
            if node == mark {
                break;
            }
            if step == span {
                mark = node;
                span = span.saturating_mul(2);
            }
        }
        Some(RoutePair {
            orig: start.orig,
            node,
        })
    }

    // Walks from a pair, and adds the least node of a loop that is found.
    fn follow(
        &self,
        when: When,
        start: RoutePair,
        seen: &mut IndexSet<RoutePair>,
        heads: &mut IndexSet<RoutePair>,
    ) -> Result<(), NoMemory>
        ensures kept { OnOk result (AreAmong heads.old.keys heads.new.keys) }
        ensures all { AreKept self.now → AreNoted self.now when heads.old.keys seen.old.keys →
            OnOk result (AreNoted self.now when heads.new.keys seen.new.keys) }
        ensures noted { AreKept self.now → AreNoted self.now when heads.old.keys seen.old.keys →
            OnOk result (IsNoted self.now when heads.new.keys start) }
    {
        let met = if self.before.len() == 1 {
            self.pass(when, start)
        } else {
            self.meet(when, start, seen)?
        };
        if let Some(pair) = met {
            self.add_head(when, pair, heads)?;
        }
        Ok(())
    }

    // The least node of each loop to which a pair that has changed leads.
    fn heads(&self, when: When) -> Result<IndexSet<RoutePair>, NoMemory>
        ensures ordered { IfOk result (λ heads. IsStrictlySortedBy pair_order heads.keys) }
        ensures noted { AreKept self.now → IfOk result (λ heads. (pair : RoutePair) →
            has_changed self.now pair ≡ true → IsNoted self.now when heads.keys pair) }
    {
        let mut seen = IndexSet::new(self.alloc);
        let mut heads = IndexSet::new(self.alloc);
        for pair in self.before.keys().as_slice() {
            if self.has_changed(*pair) {
                self.follow(when, *pair, &mut seen, &mut heads)?;
            }
        }
        heads.sort()?;
        Ok(heads)
    }

    // The loop that begins with its least node at a pair, where one of its pairs has changed.
    fn changed_loop(&self, when: When, head: RoutePair) -> Result<Option<Loop>, NoMemory>
        ensures { IfOk result (λ found. found ≡ changed_loop self.now when head) }
    {
        let Some(nodes) = self.walk(when, head)? else {
            return Ok(None);
        };
        if is_least_of(nodes.as_slice(), head.node)
            && self.have_changed(head.orig, nodes.as_slice())
        {
            Ok(Some(Loop {
                orig: head.orig,
                nodes,
            }))
        } else {
            Ok(None)
        }
    }

    // The loops of which a pair has changed.
    fn changed_loops(&self, when: When) -> Result<LoopList, NoMemory>
        ensures { (calls : List WatchCall) → WatchStands self.now calls →
            IfOk result (λ loops. loops ≡ gone_from (loops_of (lines_at calls when))
            (loops_of (lines_at calls (other when)))) }
    {
        let mut loops = LoopList::new(self.alloc);
        let heads = self.heads(when)?;
        for head in heads.as_slice() {
            if let Some(route_loop) = self.changed_loop(when, *head)? {
                loops.push(route_loop)?;
            }
        }
        Ok(loops)
    }
}

// Whether no node of some has an address below this one.
fn is_least_of(nodes: &[Mac], node: Mac) -> bool
    ensures { result ≡ is_least_of nodes.now node }
{
    nodes.iter().all(|other| !(*other < node))
}

// The least of a node and others.
fn least_of(first: Mac, others: &[Mac]) -> Mac
    ensures { result ≡ best_of is_smaller first others.now }
{
    let mut least = first;
    for node in others {
        if *node < least {
            least = *node;
        }
    }
    least
}
