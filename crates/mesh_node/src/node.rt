ghost use Rattle.std.specs.Prelude.{◌≡◌, ◌↔◌, ◌≤◌, ℕ, true, false, [], Err, option_map, OnOk, is_err};
ghost use Rattle.mesh_base.specs.declared.address.Mac.{Mac};
ghost use Rattle.mesh_model.specs.Acts.Choosing.{acts_of, cutter_by};
ghost use Rattle.mesh_model.specs.Acts.NodeLimits.{node_limit};
ghost use Rattle.mesh_model.specs.Clients.Lans.{bridge};
ghost use Rattle.mesh_model.specs.Clients.Log.{Given, Log};
ghost use Rattle.mesh_model.specs.Knowledge.Steps.{knowledge};
ghost use Rattle.mesh_node.specs.NodeStands.{NodeStands, MayTake, given_by, is_dead};
ghost use Rattle.node_cuts.specs.Collected.{cutter_of};
ghost use Rattle.node_ground.specs.OwnStands.{with_input};
ghost use Rattle.node_ground.specs.OwnStands.{HasClients, newest_moment};
ghost use Rattle.node_ground.specs.Puts.{Leaves};
ghost use Rattle.mesh_bla.specs.Claims.{ClaimsStand};
ghost use Rattle.tt_global.specs.Globals.{GlobalsStand};
ghost use Rattle.tt_sync.specs.Sync.{StandsFor};

use crate::input::Input;
use mesh_algo::Algo;
use mesh_base::{Mac, Millis};
use mesh_bla::Claims;
use node_cuts::{Acts, Cutter, hand_over};
use node_ground::{NodeErr, NodeKnowledge, Port};
use node_lans::Bridge;
use std::alloc::Global;
use tt_global::Globals;
use tt_local::Locals;
use tt_sync::Sync;

/// A node with its routing algorithm. It keeps no log: what it knows it keeps in its parts.
#[derive(Drop)]
pub struct Node<A: Algo> {
    pub(crate) me: Mac,
    pub(crate) locals: Locals,
    pub(crate) kept: NodeKnowledge<A>,
    pub(crate) bridge: Bridge,
    /// How many cuts it made.
    pub(crate) cuts: u16,
    pub(crate) dead: bool,
}

impl<A: Algo> Node<A> {
    /// A node that was given nothing, with an algorithm that was given nothing.
    pub fn new(alloc: Global, me: Mac, algo: A) -> Node<A>
        requires { A.stands algo me [] }
        ensures { NodeStands A.stands A.queries result me [] }
    {
        Node {
            me,
            locals: Locals::new(alloc),
            kept: NodeKnowledge::new(alloc, me, algo),
            bridge: Bridge::new(alloc, me),
            cuts: 0,
            dead: false,
        }
    }

    /// The local clients.
    pub fn locals(&self) -> &Locals
        ensures { (me : Mac) (log : Log) → NodeStands A.stands A.queries self.now me log →
            HasClients result.now me log }
    {
        &self.locals
    }

    /// The routing algorithm.
    pub fn algo(&self) -> &A
        ensures { (me : Mac) (log : Log) → NodeStands A.stands A.queries self.now me log →
            A.stands result.now me (knowledge (A.queries me) me log).routes }
    {
        &self.kept.algo
    }

    /// What is known of the tables of others.
    pub fn globals(&self) -> &Globals
        ensures { (me : Mac) (log : Log) → NodeStands A.stands A.queries self.now me log →
            GlobalsStand result.now (knowledge (A.queries me) me log).tables }
    {
        &self.kept.globals
    }

    /// The marks of clients that roamed, and when others were asked and clients advertised.
    pub fn sync(&self) -> &Sync
        ensures { (me : Mac) (log : Log) → NodeStands A.stands A.queries self.now me log →
            StandsFor result.now (knowledge (A.queries me) me log).marks }
    {
        &self.kept.sync
    }

    /// Who holds the clients of its LAN, by the claims that came on it.
    pub fn claims(&self) -> &Claims
        ensures { (me : Mac) (log : Log) → NodeStands A.stands A.queries self.now me log →
            ClaimsStand result.now me (bridge log).claims }
    {
        &self.bridge.claims
    }

    /// The number of the LAN of which it is a gateway, from 1, or `None` where it is none.
    pub fn lan(&self) -> Option<u16>
        ensures { (me : Mac) (log : Log) → NodeStands A.stands A.queries self.now me log →
            result ≡ option_map (λ lan. lan.number) (bridge log).lan }
    {
        match &self.bridge.lan {
            Some(lan) => Some(lan.number),
            None => None,
        }
    }

    /// Takes what it is given at a moment, and puts its acts into the port. After a refusal it
    /// takes nothing more.
    pub fn take<P: Port>(
        &mut self,
        port: &mut P,
        now: Millis,
        input: &Input<'_>,
    ) -> Result<(), NodeErr>
        requires { is_dead self.old ≡ false → MayTake A.stands A.queries self.old now input.now }

        // The acts are put in order, up to the first that is refused, whatever number a link frame
        // has; and where the input passes a limit of clients, those before the sighting, and where
        // it passes that of cuts, those before the cut. Moments never fall.
        ensures puts { (me : Mac) (log : Log) (number : ℕ) →
            NodeStands A.stands A.queries self.old me log → newest_moment log ≤ now →
            let given : Given = given_by number input.now in
            Leaves P.takes P.same P.over (node_limit (A.queries me) me log now given)
            port.old (acts_of (A.queries me) me log now given) result port.new }
        ensures noted { (me : Mac) (log : Log) (number : ℕ) →
            NodeStands A.stands A.queries self.old me log → newest_moment log ≤ now →
            OnOk result (NodeStands A.stands A.queries self.new me
            (with_input (A.queries me) me log now (given_by number input.now))) }

        // It answers `Dead` exactly after a refusal, and leaves the port then.
        ensures dead { (result ≡ Err NodeErr.Dead) ↔ (is_dead self.old ≡ true) }
        ensures left { result ≡ Err NodeErr.Dead → P.same port.old port.new }
        ensures dies { is_dead self.new ≡ is_err result }
    {
        if self.dead {
            return Err(NodeErr::Dead);
        }
        let mut cutter = self.cutter();
        let answer = if cutter.most == 0 {
            // All packets go whole.
            self.carry_out(port, now, input)
        } else {
            let mut acts = Acts::new(self.kept.alloc);
            let collected = self.carry_out(&mut acts, now, input);
            hand_over(&mut cutter, self.kept.alloc, port, acts, collected)
        };
        self.cuts = cutter.cuts;
        self.dead = answer.is_err();
        answer
    }

    // How it cuts.
    fn cutter(&self) -> Cutter
        ensures cuts { (me : Mac) (log : Log) → NodeStands A.stands A.queries self.now me log →
            cutter_of result ≡ cutter_by (A.queries me) me log }
        ensures few { result.cuts ≤ 65535 }
    {
        let most = self.kept.services.settings.longest_whole;
        Cutter::new(self.me, most, self.cuts)
    }
}
