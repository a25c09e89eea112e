ghost use Rattle.std.specs.Prelude.{◌≡◌, ◌-◌, ◌+◌, ℕ, suc, ◌<◌, true, is_ok, ◌∷◌, take, Some, IfErr, Ok, OnOk, OnErr, IsErrOf, slice_get, ⊤};
ghost use Rattle.mesh_model.specs.declared.frame_choice.FrameChoice.{FrameChoice};
ghost use Rattle.mesh_model.specs.Net.Mesh.{Mesh};
ghost use Rattle.mesh_model.specs.declared.happening.Class.TheVariants.{NodeTick};
ghost use Rattle.mesh_model.specs.Net.Due.{tick_time};
ghost use Rattle.mesh_model.specs.Net.Limits.{scenario_setup};
ghost use Rattle.mesh_model.specs.Net.Inputs.{given_to};
ghost use Rattle.mesh_model.specs.Net.Runs.{after_happening, delivered, effect, ticked};
ghost use Rattle.mesh_node.specs.NodeStands.{given_by};
ghost use Rattle.mesh_net.specs.NetStands.{HoldsFor, NetStands, IsNet, IsDead};
ghost use Rattle.mesh_net.specs.declared.seat.Seat.{Seat};
ghost use Rattle.mesh_net.specs.Given.{GiveTells};
ghost use Rattle.mesh_post.specs.Sent.{Grew};
ghost use Rattle.mesh_net.specs.Steps.{AreOnLans, AreOnLinks, Gave, HasHappened, HasNodes, HasStage, HoldsAmid, KeepsNet, KeepsSent, MayTickAt, Settled, SettleTells, net_error, tick_now, ticks_amid};
ghost use Rattle.mesh_net.specs.Watching.{WatchStands};
ghost use Rattle.mesh_net.specs.Reached.{IsOfLine};
ghost use Rattle.mesh_net.specs.Tells.{Carried, StepTells, TellsRightly};
ghost use Rattle.mesh_tie.specs.NetTables.{NamesClients};

use crate::failure::NetErr;
use crate::give::{Occasion, give_at};
use crate::net::Net;
use mesh_algo::Algo;
use mesh_base::{Events, Millis};
use mesh_model::{Class, Happening, LimitName};
use mesh_node::{Input, NodeErr};

/// The time between two ticks, in milliseconds.
pub(crate) const TICK_TIME: Millis = 500;

impl<A: Algo + Drop> Net<A> {
    /// Gives the node at a place what a line of a scenario gives it, now.
    pub fn input(&mut self, node: u32, input: &Input<'_>, log: &mut Events) -> Result<(), NetErr>
        requires net { IsNet A.queries A.stands self.old }
        requires line { IsOfLine (given_by 0 input.now) }
        ensures carried { HoldsFor A.queries A.stands self.old (λ choice clock mesh.
            OnOk result (Carried A.queries A.stands self.new choice clock mesh log.old log.new
            (given_to (scenario_setup A.queries) node clock 0 (given_by 0 input.now) mesh))) }
        ensures right { (choice : FrameChoice) (clock : ℕ) (mesh after : Mesh) →
            NetStands A.queries A.stands self.old choice clock mesh →
            given_to (scenario_setup A.queries) node clock 0 (given_by 0 input.now) mesh ≡ Ok after →
            OnOk result (TellsRightly A.queries (NamesClients (given_by 0 input.now)) mesh after
            log.old log.new) }

        // An earlier refusal comes first; want of memory may stand in place of a limit.
        ensures cause { HoldsFor A.queries A.stands self.old (λ choice clock mesh.
            IfErr result (StepTells
            (given_to (scenario_setup A.queries) node clock 0 (given_by 0 input.now) mesh))) }
        ensures as_before { OnErr result (log.new ≡ log.old) }
        ensures dead { IsDead self.old → IsErrOf result NetErr.Dead }
        ensures refused { OnErr result (IsDead self.new) }
        ensures net { IsNet A.queries A.stands self.new }
    {
        if self.dead {
            return Err(NetErr::Dead);
        }
        let before = log.len();
        let given = self.input_at(node, input, log);
        self.settle(given, before, log)
    }

    /// Delivers the link frame of a number again, now.
    pub fn deliver(&mut self, number: u32, log: &mut Events) -> Result<(), NetErr>
        requires { IsNet A.queries A.stands self.old }
        ensures carried { HoldsFor A.queries A.stands self.old (λ choice clock mesh.
            OnOk result (Carried A.queries A.stands self.new choice clock mesh log.old log.new
            (delivered (scenario_setup A.queries) (number - 1) clock mesh))) }
        ensures right { (choice : FrameChoice) (clock : ℕ) (mesh after : Mesh) →
            NetStands A.queries A.stands self.old choice clock mesh →
            delivered (scenario_setup A.queries) (number - 1) clock mesh ≡ Ok after →
            OnOk result (TellsRightly A.queries ⊤ mesh after log.old log.new) }

        // An earlier refusal comes first; want of memory may stand in place of a limit.
        ensures cause { HoldsFor A.queries A.stands self.old (λ choice clock mesh. IfErr result
            (StepTells (delivered (scenario_setup A.queries) (number - 1) clock mesh))) }
        ensures as_before { OnErr result (log.new ≡ log.old) }
        ensures dead { IsDead self.old → IsErrOf result NetErr.Dead }
        ensures refused { OnErr result (IsDead self.new) }
        ensures net { IsNet A.queries A.stands self.new }
    {
        if self.dead {
            return Err(NetErr::Dead);
        }
        let before = log.len();
        let given = self.deliver_at(number.saturating_sub(1), self.clock, log);
        self.settle(given, before, log)
    }

    // Gives the node at a place what a line gives it.
    fn input_at(&mut self, place: u32, input: &Input<'_>, log: &mut Events) -> Result<(), NodeErr>
        requires nodes { HasNodes A.queries A.stands self.old self.old.clock }
        requires line { IsOfLine (given_by 0 input.now) }
        ensures given { HoldsAmid A.queries A.stands self.old self.old.clock
            (λ choice last ticks mesh. OnOk result
            (Gave A.queries A.stands self.new choice last ticks mesh log.old log.new (given_to
            (scenario_setup A.queries) place self.old.clock 0 (given_by 0 input.now) mesh))) }
        ensures cause { HoldsAmid A.queries A.stands self.old self.old.clock
            (λ choice last ticks mesh. IfErr result (GiveTells (given_to (scenario_setup A.queries)
            place self.old.clock 0 (given_by 0 input.now) mesh))) }
        ensures kept { KeepsNet self.old self.new }
        ensures grew { Grew log.old log.new }
    {
        let at = Occasion {
            place,
            now: self.clock,
            root: 0,
        };
        give_at(
            &mut self.seats,
            &mut self.post,
            &mut self.spare,
            log,
            at,
            input,
        )
    }

    // Gives the node at the end of its link the frame at a place.
    #[inline(always)]
    fn deliver_at(&mut self, place: u32, now: Millis, log: &mut Events) -> Result<(), NodeErr>
        requires { HasNodes A.queries A.stands self.old now }
        ensures given { HoldsAmid A.queries A.stands self.old now (λ choice last ticks mesh.
            AreOnLinks mesh →
            OnOk result (Gave A.queries A.stands self.new choice last ticks mesh log.old log.new
            (delivered (scenario_setup A.queries) place now mesh))) }
        ensures cause { HoldsAmid A.queries A.stands self.old now (λ choice last ticks mesh.
            AreOnLinks mesh →
            IfErr result (GiveTells (delivered (scenario_setup A.queries) place now mesh))) }
        ensures kept { KeepsNet self.old self.new }
        ensures grew { Grew log.old log.new }
    {
        let Some(arrival) = self.post.arrival(place) else {
            return Ok(());
        };
        let Some((bytes, root)) = self.sent.get(arrival.sending) else {
            return Ok(());
        };
        let at = Occasion {
            place: arrival.to,
            now,
            root,
        };
        let input = Input::Link {
            from: arrival.from,
            tp: arrival.tp,
            bytes,
        };
        give_at(
            &mut self.seats,
            &mut self.post,
            &mut self.spare,
            log,
            at,
            &input,
        )
    }

    // The node at a place ticks.
    fn tick_at(&mut self, place: u32, now: Millis, log: &mut Events) -> Result<(), NodeErr>
        requires { MayTickAt A.queries A.stands self.old place now }
        ensures given { HoldsAmid A.queries A.stands self.old now (λ choice last others mesh.
            OnOk result (Gave A.queries A.stands self.new choice last
            (tick_now place (now + tick_time) ∷ others) mesh log.old log.new
            (ticked (scenario_setup A.queries) place now mesh))) }
        ensures cause { HoldsAmid A.queries A.stands self.old now (λ choice last others mesh.
            IfErr result (GiveTells (ticked (scenario_setup A.queries) place now mesh))) }
        ensures kept { KeepsNet self.old self.new }
        ensures grew { Grew log.old log.new }
    {
        let next = tick_of(place, now.saturating_add(TICK_TIME));
        self.post.queue.push(next)?;
        let index = self.next_index(place);
        let at = Occasion {
            place,
            now,
            root: index,
        };
        let input = Input::Tick { index };
        give_at(
            &mut self.seats,
            &mut self.post,
            &mut self.spare,
            log,
            at,
            &input,
        )
    }

    // The index of the next tick of the node at a place.
    fn next_index(&self, place: u32) -> u64
        ensures { (seat : Seat A) → slice_get self.now.seats.items place ≡ Some seat →
            seat.ticks < 4294967296 → result ≡ suc seat.ticks }
    {
        match self.seats.get(place as usize) {
            Some(seat) => seat.ticks.saturating_add(1),
            None => 1,
        }
    }

    // Carries out what happens.
    pub(crate) fn happen(&mut self, h: Happening, log: &mut Events) -> Result<(), NodeErr>
        requires stage { HasStage A.queries A.stands self.old.seats.items self.old.post h.moment }
        requires tick { h.class ≡ NodeTick →
            MayTickAt A.queries A.stands self.old h.place h.moment }
        ensures given { HoldsAmid A.queries A.stands self.old h.moment (λ choice last others mesh.
            AreOnLinks mesh → AreOnLans mesh →
            OnOk result (Gave A.queries A.stands self.new choice last
            (ticks_amid h.class h.place h.moment others) mesh log.old log.new
            (effect (scenario_setup A.queries) h.class h.place h.moment mesh))) }
        ensures cause { HoldsAmid A.queries A.stands self.old h.moment (λ choice last others mesh.
            AreOnLinks mesh → AreOnLans mesh → IfErr result (GiveTells
            (effect (scenario_setup A.queries) h.class h.place h.moment mesh))) }
        ensures kept { KeepsNet self.old self.new }
        ensures grew { Grew log.old log.new }
    {
        match h.class {
            Class::LinkDelivery => self.deliver_at(h.place, h.moment, log),
            Class::LanDelivery => self.deliver_on_lan(h.place, h.moment, log),
            Class::NodeTick => self.tick_at(h.place, h.moment, log),
        }
    }

    // Carries out what happens, and tells the lines of routes with which it ends.
    pub(crate) fn happen_whole(&mut self, h: Happening, log: &mut Events) -> Result<(), NodeErr>
        requires stage { HasStage A.queries A.stands self.old.seats.items self.old.post h.moment }
        requires tick { h.class ≡ NodeTick →
            MayTickAt A.queries A.stands self.old h.place h.moment }
        ensures happened { HoldsAmid A.queries A.stands self.old h.moment
            (λ choice last others mesh.
            AreOnLinks mesh → AreOnLans mesh → WatchStands self.old.watch mesh.watch →
            OnOk result (HasHappened A.queries A.stands self.new choice last
            (ticks_amid h.class h.place h.moment others) mesh log.old log.new h)) }
        ensures cause { HoldsAmid A.queries A.stands self.old h.moment (λ choice last others mesh.
            AreOnLinks mesh → AreOnLans mesh →
            IfErr result (GiveTells (after_happening (scenario_setup A.queries) h mesh))) }
        ensures kept { KeepsSent self.old self.new }
        ensures grew { Grew log.old log.new }
    {
        self.happen(h, log)?;
        self.tell_routes(h, log)?;
        Ok(())
    }

    // Keeps what a step sent, or takes back what it told.
    pub(crate) fn settle(
        &mut self,
        given: Result<(), NodeErr>,
        before: usize,
        log: &mut Events,
    ) -> Result<(), NetErr>
        ensures ok { OnOk result ((is_ok given ≡ true) × Settled self.old self.new
            × (log.new ≡ log.old)) }
        ensures cause { IfErr result (SettleTells given) }
        ensures cut { OnErr result (log.new ≡ take before log.old) }
        ensures refused { OnErr result (IsDead self.new) }
    {
        if let Err(error) = self.keep(given) {
            log.cut(before);
            self.dead = true;
            return Err(error);
        }
        Ok(())
    }

    // Keeps what a step sent, where nothing was refused.
    fn keep(&mut self, given: Result<(), NodeErr>) -> Result<(), NetErr>
        ensures ok { OnOk result ((is_ok given ≡ true) × Settled self.old self.new) }
        ensures cause { IfErr result (SettleTells given) }
    {
        match given {
            Ok(()) => self.keep_sendings(),
            Err(error) => Err(net_error(error)),
        }
    }

    // Puts the sendings of a step behind the others.
    pub(crate) fn keep_sendings(&mut self) -> Result<(), NetErr>
        ensures ok { OnOk result (Settled self.old self.new) }
        ensures err { IfErr result (λ error. error ≡ NetErr.Memory) }
    {
        self.sent.keep(&mut self.post.fresh, &mut self.spare)?;
        self.post.older = self.sent.len();
        Ok(())
    }
}

// A tick of the node at a place.
pub(crate) fn tick_of(place: u32, moment: Millis) -> Happening
    ensures { result ≡ tick_now place moment }
{
    Happening {
        moment,
        class: Class::NodeTick,
        place,
    }
}

// What a refusal of a node is in its net.
fn net_error(error: NodeErr) -> NetErr
    ensures { result ≡ net_error error }
{
    match error {
        NodeErr::Memory => NetErr::Memory,
        NodeErr::Clients => NetErr::Limit(LimitName::Clients),
        NodeErr::Vlans => NetErr::Limit(LimitName::Vlans),
        NodeErr::Frames => NetErr::Limit(LimitName::Frames),
        NodeErr::FrameBytes => NetErr::Limit(LimitName::FrameBytes),
        NodeErr::Cuts => NetErr::Limit(LimitName::Cuts),
        NodeErr::Dead => NetErr::Dead,
    }
}
