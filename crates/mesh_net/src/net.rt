ghost use Rattle.std.specs.Prelude.{◌≡◌, ◌↔◌, ◌-◌, ◌+◌, ℕ, nat_lt, ◌<◌, ◌≤◌, false, List, length, Some, is_some, slice_get};
ghost use Rattle.mesh_model.specs.declared.frame_choice.FrameChoice.{FrameChoice};
ghost use Rattle.mesh_model.specs.declared.frame_choice.FrameChoice.TheVariants.{All};
ghost use Rattle.mesh_model.specs.Net.Mesh.{Mesh, NodeLog, begun_mesh, empty_mesh, address_at};
ghost use Rattle.mesh_model.specs.declared.happening.Happening.{Happening};
ghost use Rattle.mesh_model.specs.Net.Limits.{clock_limit};
ghost use Rattle.mesh_node.specs.NodeStands.{NodeStands};
ghost use Rattle.mesh_net.specs.NetStands.{HoldsFor, NetStands, IsNet, IsDead, HasNode, SeatsStand};
ghost use Rattle.mesh_net.specs.Reached.{begun_watch};
ghost use Rattle.mesh_net.specs.declared.seat.Seat.{Seat};

use crate::kept::Kept;
use crate::seat::Seat;
use mesh_algo::Algo;
use mesh_base::{Mac, Millis};
use mesh_model::{Class, FrameChoice, Happening};
use mesh_node::Node;
use mesh_post::Post;
use mesh_told::ToldRoutes;
use std::alloc::Global;

/// A net of nodes with a routing algorithm.
#[derive(Drop)]
pub struct Net<A: Algo> {
    pub(crate) alloc: Global,
    pub(crate) seats: Vec<Seat<A>>,
    pub(crate) post: Post,
    /// A vector whose room the bytes of the next act take.
    pub(crate) spare: Vec<u8>,
    /// What was sent before the step under way.
    pub(crate) sent: Kept,
    pub(crate) clock: Millis,
    /// The last happening that was carried out.
    pub(crate) last: Happening,
    /// The routes that were told, where they are watched.
    pub(crate) watch: Option<ToldRoutes>,
    /// A call was refused.
    pub(crate) dead: bool,
}

impl<A: Algo + Drop> Net<A> {
    /// A net without nodes, at the moment 0. All frames become events.
    pub fn new(alloc: Global) -> Net<A>
        ensures { NetStands A.queries A.stands result All 0 empty_mesh }
    {
        Net {
            alloc,
            seats: Vec::new(alloc),
            post: Post::new(alloc),
            spare: Vec::new(alloc),
            sent: Kept::new(alloc),
            clock: 0,
            last: Happening {
                moment: 0,
                class: Class::LinkDelivery,
                place: 0,
            },
            watch: None,
            dead: false,
        }
    }

    /// A net without nodes, at a moment. All frames become events.
    pub fn begin(alloc: Global, clock: Millis) -> Net<A>
        requires { clock ≤ clock_limit }
        ensures { NetStands A.queries A.stands result All clock empty_mesh }
    {
        let mut net = Net::new(alloc);
        net.clock = clock;
        net
    }

    /// From now on only those link frames become events that a choice shows; other events always
    /// do. It takes no memory.
    pub fn show_frames(&mut self, choice: FrameChoice)
        ensures shows { HoldsFor A.queries A.stands self.old (λ old clock mesh.
            NetStands A.queries A.stands self.new choice clock mesh) }
        ensures dead { IsDead self.new ↔ IsDead self.old }
    {
        self.post.choice = choice;
    }

    /// The choice of the link frames that become events.
    pub fn choice(&self) -> FrameChoice
        ensures { HoldsFor A.queries A.stands self.now (λ choice clock mesh. result ≡ choice) }
    {
        self.post.choice
    }

    /// The node at a place.
    pub fn node(&self, node: u32) -> &Node<A>
        requires { HasNode A.queries A.stands self.now node }
        ensures { (choice : FrameChoice) (clock : ℕ) (mesh : Mesh) (row : NodeLog) →
            NetStands A.queries A.stands self.now choice clock mesh →
            slice_get mesh.nodes node ≡ Some row →
            NodeStands A.stands A.queries result.now row.mac row.log }
    {
        &self.seats[node as usize].node
    }

    /// The address of the node at a place.
    pub fn address(&self, node: u32) -> Mac
        ensures { HoldsFor A.queries A.stands self.now (λ choice clock mesh.
            result ≡ address_at node mesh.nodes) }
    {
        self.mac_at(node)
    }

    /// Whether there is a node. A mesh without nodes is the one at the begin, at whatever moment.
    pub fn has_nodes(&self) -> bool
        ensures told { HoldsFor A.queries A.stands self.now (λ choice clock mesh.
            result ≡ nat_lt 0 (length mesh.nodes)) }
        ensures empty { HoldsFor A.queries A.stands self.now (λ choice clock mesh.
            result ≡ false → mesh ≡ begun_mesh (begun_watch (is_some mesh.watch))) }
    {
        !self.seats.is_empty()
    }

    /// The clock.
    pub fn now(&self) -> Millis
        ensures { HoldsFor A.queries A.stands self.now (λ choice clock mesh. result ≡ clock) }
    {
        self.clock
    }

    /// How many link frames were sent.
    pub fn sent(&self) -> u32
        requires { IsNet A.queries A.stands self.now }
        ensures { HoldsFor A.queries A.stands self.now (λ choice clock mesh.
            result ≡ length mesh.frames) }
    {
        match u32::try_from(self.post.frames.len()) {
            Ok(count) => count,
            Err(_) => u32::MAX,
        }
    }

    /// How many nodes there are.
    pub fn len(&self) -> usize
        ensures { HoldsFor A.queries A.stands self.now (λ choice clock mesh.
            result ≡ length mesh.nodes) }
    {
        self.seats.len()
    }

    // The address of the node at a place.
    pub(crate) fn mac_at(&self, place: u32) -> Mac
        ensures { (nodes : List NodeLog) →
            SeatsStand A.queries A.stands self.now.seats.items nodes →
            result ≡ address_at place nodes }
    {
        match self.seats.get(place as usize) {
            Some(seat) => seat.mac,
            None => Mac::ZERO,
        }
    }
}
