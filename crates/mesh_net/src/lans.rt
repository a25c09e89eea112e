ghost use Rattle.std.specs.Prelude.{◌≡◌, ℕ, ◌<◌, Ok, is_some, length, List, map, IfErr, IfOk, OnErr, OnOk, IsErrOf};
ghost use Rattle.mesh_model.specs.Net.Inputs.{all_given};
ghost use Rattle.mesh_model.specs.Net.Limits.{scenario_setup};
ghost use Rattle.mesh_model.specs.Net.Mesh.{NodeLog, Mesh, address_at};
ghost use Rattle.mesh_model.specs.Net.Sending.{lan_of, with_put};
ghost use Rattle.mesh_model.specs.Net.Lans.{gateways_at};
ghost use Rattle.mesh_model.specs.declared.frame_choice.FrameChoice.{FrameChoice};
ghost use Rattle.mesh_net.specs.Given.{GiveTells};
ghost use Rattle.mesh_net.specs.NetStands.{HoldsFor, NetStands, IsNet, IsDead, IsLive, SeatsStand, line_put};
ghost use Rattle.mesh_net.specs.Reached.{IsNewLan, IsOfLine};
ghost use Rattle.mesh_net.specs.Steps.{Gave, GaveAndKept, HoldsAmid, IsTickless, KeepsNet, MayBegin};
ghost use Rattle.mesh_net.specs.Tells.{Carried, HasJoinedLan, LanTells, StepTells, TellsRightly};
ghost use Rattle.mesh_tie.specs.NetTables.{NamesClients, TellsPut};
ghost use Rattle.mesh_node.specs.NodeStands.{given_by};
ghost use Rattle.mesh_post.specs.Sent.{Grew};

use crate::failure::NetErr;
use crate::gateways::give_all;
use crate::net::Net;
use mesh_algo::Algo;
use mesh_base::{Bytes, Events, Mac, NoMemory};
use mesh_model::LimitName;
use mesh_node::{Input, NodeErr};
use mesh_post::{Putting, place_of};

/// The most LANs.
const LANS_LIMIT: usize = 16;

impl<A: Algo + Drop> Net<A> {
    /// Adds a LAN whose gateways are the nodes at these places, and answers its place, from 0.
    pub fn add_lan(&mut self, gateways: &[u32]) -> Result<u32, NetErr>
        requires net { IsNet A.queries A.stands self.old }
        requires rules { HoldsFor A.queries A.stands self.old (λ choice clock mesh.
            IsNewLan mesh gateways.now) }
        ensures joins { HoldsFor A.queries A.stands self.old (λ choice clock mesh.
            IfOk result (HasJoinedLan A.queries A.stands self.new choice clock mesh gateways.now)) }

        // The first cause counts: an earlier refusal, the limit, memory.
        ensures cause { HoldsFor A.queries A.stands self.old (λ choice clock mesh.
            IfErr result (LanTells (length mesh.lans))) }
        ensures dead { IsDead self.old → IsErrOf result NetErr.Dead }
        ensures refused { OnErr result (IsDead self.new) }
        ensures net { IsNet A.queries A.stands self.new }
    {
        if self.dead {
            return Err(NetErr::Dead);
        }
        let joined = self.join_lan(gateways);
        self.dead = joined.is_err();
        joined
    }

    /// Puts a frame on the LAN at a place, now. No gateway puts it.
    pub fn lan_frame(&mut self, lan: u32, bytes: Bytes, log: &mut Events) -> Result<(), NetErr>
        requires net { IsNet A.queries A.stands self.old }
        requires known { HoldsFor A.queries A.stands self.old (λ choice clock mesh.
            lan < length mesh.lans) }
        ensures carried { HoldsFor A.queries A.stands self.old (λ choice clock mesh.
            OnOk result (Carried A.queries A.stands self.new choice clock mesh log.old log.new
            (with_put (scenario_setup A.queries) (line_put lan bytes clock) mesh))) }
        ensures right { (choice : FrameChoice) (clock : ℕ) (mesh after : Mesh) →
            NetStands A.queries A.stands self.old choice clock mesh →
            with_put (scenario_setup A.queries) (line_put lan bytes clock) mesh ≡ Ok after →
            OnOk result (TellsRightly A.queries (TellsPut bytes) mesh after log.old log.new) }

        // An earlier refusal comes first; want of memory may stand in place of a limit.
        ensures cause { HoldsFor A.queries A.stands self.old (λ choice clock mesh. IfErr result
            (StepTells (with_put (scenario_setup A.queries) (line_put lan bytes clock) mesh))) }
        ensures as_before { OnErr result (log.new ≡ log.old) }
        ensures dead { IsDead self.old → IsErrOf result NetErr.Dead }
        ensures refused { OnErr result (IsDead self.new) }
        ensures net { IsNet A.queries A.stands self.new }
    {
        if self.dead {
            return Err(NetErr::Dead);
        }
        let before = log.len();
        let given = self.put_now(lan, bytes, log);
        self.settle(given, before, log)
    }

    /// Gives each gateway of the LAN at a place what a line of a scenario gives it, now.
    pub fn input_all(&mut self, lan: u32, input: &Input<'_>, log: &mut Events) -> Result<(), NetErr>
        requires net { IsNet A.queries A.stands self.old }
        requires line { IsOfLine (given_by 0 input.now) }
        ensures carried { HoldsFor A.queries A.stands self.old (λ choice clock mesh.
            OnOk result (Carried A.queries A.stands self.new choice clock mesh log.old log.new
            (all_given (scenario_setup A.queries) (gateways_at lan mesh.lans) clock
            (given_by 0 input.now) mesh))) }
        ensures right { (choice : FrameChoice) (clock : ℕ) (mesh after : Mesh) →
            NetStands A.queries A.stands self.old choice clock mesh →
            all_given (scenario_setup A.queries) (gateways_at lan mesh.lans) clock
            (given_by 0 input.now) mesh ≡ Ok after →
            OnOk result (TellsRightly A.queries (NamesClients (given_by 0 input.now)) mesh after
            log.old log.new) }

        // An earlier refusal comes first; want of memory may stand in place of a limit.
        ensures cause { HoldsFor A.queries A.stands self.old (λ choice clock mesh.
            IfErr result (StepTells (all_given (scenario_setup A.queries)
            (gateways_at lan mesh.lans) clock (given_by 0 input.now) mesh))) }
        ensures as_before { OnErr result (log.new ≡ log.old) }
        ensures dead { IsDead self.old → IsErrOf result NetErr.Dead }
        ensures refused { OnErr result (IsDead self.new) }
        ensures net { IsNet A.queries A.stands self.new }
    {
        if self.dead {
            return Err(NetErr::Dead);
        }
        let before = log.len();
        let given = self.give_gateways(lan, input, log);
        self.settle(given, before, log)
    }

    /// Whether the node at a place is a gateway.
    pub fn is_gateway(&self, node: u32) -> bool
        ensures { HoldsFor A.queries A.stands self.now (λ choice clock mesh.
            result ≡ is_some (lan_of node mesh.lans)) }
    {
        self.post.lan_of(node).is_some()
    }

    // A new LAN joins.
    fn join_lan(&mut self, gateways: &[u32]) -> Result<u32, NetErr>
        requires live { IsLive A.queries A.stands self.old }
        requires rules { HoldsFor A.queries A.stands self.old (λ choice clock mesh.
            IsNewLan mesh gateways.now) }
        ensures joins { HoldsFor A.queries A.stands self.old (λ choice clock mesh.
            IfOk result (HasJoinedLan A.queries A.stands self.new choice clock mesh gateways.now)) }
        ensures cause { HoldsFor A.queries A.stands self.old (λ choice clock mesh.
            IfErr result (LanTells (length mesh.lans))) }
    {
        if self.post.lans.len() >= LANS_LIMIT {
            return Err(NetErr::Limit(LimitName::Lans));
        }
        let place = place_of(self.post.lans.len())?;
        let Ok(lan) = u16::try_from(place.saturating_add(1)) else {
            return Err(NetErr::Memory);
        };
        let macs = self.macs_at(gateways)?;
        self.post.add_lan(gateways)?;
        let input = Input::Attach {
            lan,
            gateways: macs.as_slice(),
        };
        self.attach(gateways, &input)?;
        Ok(place)
    }

    // Tells nodes that they are the gateways of a LAN. That passes no limit, and has no event.
    fn attach(&mut self, gateways: &[u32], input: &Input<'_>) -> Result<(), NetErr>
        requires stage { MayBegin A.queries A.stands self.old }
        requires tickless { IsTickless input.now }
        ensures given { HoldsAmid A.queries A.stands self.old self.old.clock
            (λ choice last ticks mesh. OnOk result
            (GaveAndKept A.queries A.stands self.old self.new choice last ticks mesh (all_given
            (scenario_setup A.queries) gateways.now self.old.clock (given_by 0 input.now) mesh))) }
        ensures err { IfErr result (λ error. error ≡ NetErr.Memory) }
    {
        let mut log = Events::new(self.alloc);
        match self.give_places(gateways, input, &mut log) {
            Ok(()) => self.keep_sendings(),
            Err(_) => Err(NetErr::Memory),
        }
    }

    // The addresses of the nodes at places.
    fn macs_at(&self, places: &[u32]) -> Result<Vec<Mac>, NoMemory>
        ensures { (nodes : List NodeLog) →
            SeatsStand A.queries A.stands self.now.seats.items nodes →
            IfOk result (λ macs. macs.items ≡ map (λ place. address_at place nodes) places.now) }
    {
        let mut macs = Vec::new(self.alloc);
        for place in places.iter() {
            macs.push(self.mac_at(*place))?;
        }
        Ok(macs)
    }

    // Puts a frame on the LAN at a place.
    fn put_now(&mut self, lan: u32, bytes: Bytes, log: &mut Events) -> Result<(), NodeErr>
        ensures given { HoldsAmid A.queries A.stands self.old self.old.clock
            (λ choice last ticks mesh. OnOk result
            (Gave A.queries A.stands self.new choice last ticks mesh log.old log.new
            (with_put (scenario_setup A.queries) (line_put lan bytes self.old.clock) mesh))) }
        ensures cause { HoldsAmid A.queries A.stands self.old self.old.clock
            (λ choice last ticks mesh. IfErr result (GiveTells
            (with_put (scenario_setup A.queries) (line_put lan bytes self.old.clock) mesh))) }
        ensures kept { KeepsNet self.old self.new }
        ensures grew { Grew log.old log.new }
    {
        let putting = Putting {
            lan,
            by: None,
            now: self.clock,
        };
        self.post.put_on(log, putting, bytes)?;
        Ok(())
    }

    // Gives the gateways of the LAN at a place what a line gives them.
    fn give_gateways(
        &mut self,
        lan: u32,
        input: &Input<'_>,
        log: &mut Events,
    ) -> Result<(), NodeErr>
        requires stage { MayBegin A.queries A.stands self.old }
        requires tickless { IsTickless input.now }
        ensures given { HoldsAmid A.queries A.stands self.old self.old.clock
            (λ choice last ticks mesh. OnOk result
            (Gave A.queries A.stands self.new choice last ticks mesh log.old log.new
            (all_given (scenario_setup A.queries) (gateways_at lan mesh.lans) self.old.clock
            (given_by 0 input.now) mesh))) }
        ensures cause { HoldsAmid A.queries A.stands self.old self.old.clock
            (λ choice last ticks mesh. IfErr result (GiveTells (all_given (scenario_setup A.queries)
            (gateways_at lan mesh.lans) self.old.clock (given_by 0 input.now) mesh))) }
        ensures kept { KeepsNet self.old self.new }
        ensures grew { Grew log.old log.new }
    {
        let places = self.post.gateways(lan, None)?;
        self.give_places(places.as_slice(), input, log)
    }

    // Gives the nodes at places something, now.
    fn give_places(
        &mut self,
        places: &[u32],
        input: &Input<'_>,
        log: &mut Events,
    ) -> Result<(), NodeErr>
        requires stage { MayBegin A.queries A.stands self.old }
        requires tickless { IsTickless input.now }
        ensures given { HoldsAmid A.queries A.stands self.old self.old.clock
            (λ choice last ticks mesh. OnOk result
            (Gave A.queries A.stands self.new choice last ticks mesh log.old log.new (all_given
            (scenario_setup A.queries) places.now self.old.clock (given_by 0 input.now) mesh))) }
        ensures cause { HoldsAmid A.queries A.stands self.old self.old.clock
            (λ choice last ticks mesh. IfErr result (GiveTells (all_given (scenario_setup A.queries)
            places.now self.old.clock (given_by 0 input.now) mesh))) }
        ensures kept { KeepsNet self.old self.new }
        ensures grew { Grew log.old log.new }
    {
        give_all(
            &mut self.seats,
            &mut self.post,
            &mut self.spare,
            log,
            places,
            self.clock,
            input,
        )
    }
}
