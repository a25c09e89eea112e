ghost use Rattle.std.specs.Prelude.{◌≡◌, ◌↔◌, ◌≤◌, ℕ, Bool, false, [], ◌∷◌, length, slice_get, is_some, Ok, IfOk, OnOk, OnErr, IsNone};
ghost use Rattle.mesh_base.specs.declared.address.Mac.{Mac};
ghost use Rattle.mesh_model.specs.declared.packet.Head.{Head};
ghost use Rattle.mesh_model.specs.Routes.Queries.{Queries, unheard};
ghost use Rattle.mesh_model.specs.Routes.RouteLog.{RouteLog, OwnTick, HeadCame, MayTick};
ghost use Rattle.mesh_algo.specs.AlgoLaws.{HasElps, HasLiveRoutes, HasOgmAtEvenTicks, HasRouteByMetric, HearsNoneBut, IgnoresAllBut, SendsElps, SendsOgms};

use mesh_base::{Mac, Millis, NoMemory};
use mesh_model::{Beats, Head, Hearing, LinkRow, OrigRow};
use std::alloc::Global;

/// A routing algorithm of one node. What it answers follows from its log, the list of all its own
/// ticks and of all heads that came to it.
pub trait Algo {
    /// The answers at the node of an address.
    ghost queries: { Mac → Queries };

    /// Whether a head is of a kind that is heard.
    ghost hears: { Head → Bool };

    /// Whether ELPs are sent.
    ghost sends_elps: { Bool };

    /// It stands for the log of the node of an address.
    ghost stands: { Self → Mac → RouteLog → Type 0 };

    /// Carries out an own tick, and answers what is sent on all links.
    fn tick(&mut self, now: Millis, index: u64) -> Beats
        requires { (me : Mac) × (log : RouteLog) × stands self.old me log × MayTick log index }
        ensures ticked { (me : Mac) (log : RouteLog) → stands self.old me log →
            stands self.new me (OwnTick now index ∷ log) }
        ensures beats { (me : Mac) (log : RouteLog) → stands self.old me log →
            result ≡ (queries me).beats log index };

    /// Takes the head of a packet that came from a neighbour, with the throughput of the link to
    /// it, or 0. A head of another kind changes nothing. Only this call takes memory.
    fn hear(&mut self, now: Millis, from: Mac, tp: u32, head: &Head) -> Result<Hearing, NoMemory>
        ensures noted { OnOk result ((me : Mac) (log : RouteLog) → stands self.old me log →
            stands self.new me (HeadCame now from tp head.now ∷ log)) }
        ensures heard { IfOk result (λ hearing. (me : Mac) (log : RouteLog) →
            stands self.old me log → hearing ≡ (queries me).hear log now from tp head.now) }
        ensures other { hears head.now ≡ false →
            (result ≡ Ok unheard) × (self.new ≡ self.old) }
        ensures err { OnErr result (self.new ≡ self.old) };

    /// Forgets all, at a reboot.
    fn restart(&mut self)
        ensures { (me : Mac) (log : RouteLog) → stands self.old me log → stands self.new me [] };

    /// The metric of an originator, 0 where there is no route to it.
    fn metric(&self, now: Millis, orig: Mac) -> u32
        ensures { (me : Mac) (log : RouteLog) → stands self.now me log →
            result ≡ (queries me).metric log now orig };

    /// The best neighbour to an originator.
    fn route(&self, now: Millis, orig: Mac) -> Option<Mac>
        ensures { (me : Mac) (log : RouteLog) → stands self.now me log →
            result ≡ (queries me).route log now orig };

    /// Whether an originator is live.
    fn live(&self, now: Millis, orig: Mac) -> bool
        ensures { (me : Mac) (log : RouteLog) → stands self.now me log →
            result ≡ (queries me).live log now orig };

    /// The live originator at this place in the order of addresses, from 0.
    fn orig_at(&self, now: Millis, i: usize) -> Option<OrigRow>
        ensures at_place { (me : Mac) (log : RouteLog) → stands self.now me log →
            result ≡ slice_get ((queries me).originators log now) i }
        ensures past_end { (me : Mac) (log : RouteLog) → stands self.now me log →
            IsNone result ↔ (length ((queries me).originators log now) ≤ i) };

    /// The live originators, in the order of addresses.
    fn originators(&self, alloc: Global, now: Millis) -> Result<Vec<OrigRow>, NoMemory>
        ensures { IfOk result (λ rows. (me : Mac) (log : RouteLog) → stands self.now me log →
            rows.items ≡ (queries me).originators log now) };

    /// The neighbour at this place in the order of addresses, from 0.
    fn link_at(&self, now: Millis, i: usize) -> Option<LinkRow>
        ensures at_place { (me : Mac) (log : RouteLog) → stands self.now me log →
            result ≡ slice_get ((queries me).neighbours log now) i }
        ensures past_end { (me : Mac) (log : RouteLog) → stands self.now me log →
            IsNone result ↔ (length ((queries me).neighbours log now) ≤ i) };

    /// A law: a route is there exactly where the metric is above 0.
    ghost routes: { (me : Mac) → HasRouteByMetric (queries me) };

    /// A law: only live originators have a route.
    ghost live_routes: { (me : Mac) → HasLiveRoutes (queries me) };

    /// A law: an OGM is sent exactly at ticks of even index.
    ghost ogms: { (me : Mac) → HasOgmAtEvenTicks (queries me) };

    /// A law: what is sent as an OGM, and what is sent on, is one.
    ghost ogm_heads: { (me : Mac) → SendsOgms (queries me) };

    /// A law: an ELP is sent at each tick, or at none.
    ghost elps: { (me : Mac) → HasElps (queries me) sends_elps };

    /// A law: what is sent as an ELP is one.
    ghost elp_heads: { (me : Mac) → SendsElps (queries me) };

    /// A law: a head of another kind is not heard.
    ghost other_unheard: { (me : Mac) → HearsNoneBut (queries me) hears };

    /// A law: a head of another kind changes no answer.
    ghost other_kinds: { (me : Mac) → IgnoresAllBut (queries me) hears };
}
