ghost use Rattle.std.specs.Prelude.{◌≡◌, ℕ, ◌≤◌, List, false, slice_get, Some, OnOk, IfErr};
ghost use Rattle.mesh_model.specs.declared.happening.Happening.{Happening};
ghost use Rattle.mesh_model.specs.Net.Inputs.{given_to};
ghost use Rattle.mesh_model.specs.Net.Limits.{scenario_setup, clock_limit};
ghost use Rattle.mesh_model.specs.Net.Mesh.{NodeLog, Mesh};
ghost use Rattle.mesh_node.specs.NodeStands.{NodeStands, MayTake, given_by, is_dead};
ghost use Rattle.node_ground.specs.OwnStands.{newest_moment};
ghost use Rattle.mesh_post.specs.declared.row.Sending.{Sending};
ghost use Rattle.mesh_net.specs.declared.seat.Seat.{Seat};
ghost use Rattle.mesh_net.specs.Given.{HasGiven, GiveTells};
ghost use Rattle.mesh_post.specs.Sent.{Grew, InStep, MaySend};
ghost use Rattle.mesh_net.specs.Steps.{Stage, Tried, CountsOn, ticks_with};

use crate::seat::Seat;
use mesh_algo::Algo;
use mesh_base::{Events, Millis};
use mesh_node::{Input, Node, NodeErr};
use mesh_post::{NetPort, Post, Sender};

/// When the node at a place acts.
#[derive(Clone, Copy, Debug)]
pub struct Occasion {
    pub(crate) place: u32,
    pub(crate) now: Millis,
    /// What its frames hand on.
    pub(crate) root: u64,
}

// Gives a node something: its acts are carried out.
#[inline(always)]
pub(crate) fn give<A: Algo>(
    node: &mut Node<A>,
    post: &mut Post,
    spare: &mut Vec<u8>,
    log: &mut Events,
    sender: Sender,
    input: &Input<'_>,
) -> Result<(), NodeErr>
    requires { is_dead node.old ≡ false → MayTake A.stands A.queries node.old sender.now
        input.now }
    ensures given { (older : List Sending) (last : Happening) (ticks : List Happening)
        (mesh : Mesh) (row : NodeLog) (number : ℕ) →
        slice_get mesh.nodes sender.place ≡ Some row →
        NodeStands A.stands A.queries node.old row.mac row.log →
        newest_moment row.log ≤ sender.now → sender.mac ≡ row.mac →
        InStep post.old older last ticks mesh → MaySend sender last mesh →
        OnOk result (HasGiven A.queries A.stands node.new post.old.choice sender
        (given_by number input.now) post.new older last ticks row mesh log.old log.new) }
    ensures cause { (older : List Sending) (last : Happening) (ticks : List Happening)
        (mesh : Mesh) (row : NodeLog) (number : ℕ) →
        slice_get mesh.nodes sender.place ≡ Some row →
        NodeStands A.stands A.queries node.old row.mac row.log →
        newest_moment row.log ≤ sender.now → sender.mac ≡ row.mac →
        InStep post.old older last ticks mesh → MaySend sender last mesh →
        IfErr result (GiveTells (given_to (scenario_setup A.queries) sender.place sender.now
        sender.root (given_by number input.now) mesh)) }
    ensures grew { Grew log.old log.new }
{
    let now = sender.now;
    let mut port = NetPort {
        post,
        log,
        sender,
        spare,
    };
    node.take(&mut port, now, input)
}

// Gives the node at a place something, where there is one.
#[inline(always)]
pub(crate) fn give_at<A: Algo>(
    seats: &mut Vec<Seat<A>>,
    post: &mut Post,
    spare: &mut Vec<u8>,
    log: &mut Events,
    at: Occasion,
    input: &Input<'_>,
) -> Result<(), NodeErr>
    requires { (seat : Seat A) → slice_get seats.old.items at.place ≡ Some seat →
        MayTake A.stands A.queries seat.node at.now input.now }
    ensures given { (older : List Sending) (last : Happening) (ticks : List Happening)
        (mesh : Mesh) (number : ℕ) →
        Stage A.queries A.stands seats.old.items post.old older last ticks at.now mesh →
        CountsOn at.place input.now mesh →
        OnOk result (Tried A.queries A.stands seats.new.items post.new post.old.choice older last
        ticks mesh log.old log.new (given_to (scenario_setup A.queries) at.place at.now at.root
        (given_by number input.now) mesh)) }
    ensures cause { (older : List Sending) (last : Happening) (ticks : List Happening)
        (mesh : Mesh) (number : ℕ) →
        Stage A.queries A.stands seats.old.items post.old older last ticks at.now mesh →
        CountsOn at.place input.now mesh →
        IfErr result (GiveTells (given_to (scenario_setup A.queries) at.place at.now at.root
        (given_by number input.now) mesh)) }
    ensures grew { Grew log.old log.new }
{
    let Some(seat) = seats.get_mut(at.place as usize) else {
        return Ok(());
    };
    seat.ticks = ticks_with(seat.ticks, input);
    let sender = Sender {
        place: at.place,
        mac: seat.mac,
        now: at.now,
        root: at.root,
    };
    give(&mut seat.node, post, spare, log, sender, input)
}

// How many ticks a node had with an input.
fn ticks_with(ticks: u64, input: &Input<'_>) -> u64
    ensures { result ≡ ticks_with ticks input.now }
{
    match *input {
        Input::Tick { index } => index,
        Input::Link { .. }
        | Input::Lan { .. }
        | Input::Attach { .. }
        | Input::Frame { .. }
        | Input::Gone { .. }
        | Input::Join { .. }
        | Input::Leave { .. }
        | Input::Arp { .. }
        | Input::Dhcp { .. }
        | Input::Wifi(_)
        | Input::GwOff
        | Input::GwServer { .. }
        | Input::GwClient(_)
        | Input::Mcast(_)
        | Input::Dat(_)
        | Input::Frag(_)
        | Input::Vis(_)
        | Input::Alfred(_)
        | Input::Put { .. }
        | Input::Get { .. }
        | Input::Ping { .. }
        | Input::Trace { .. }
        | Input::Reboot => ticks,
    }
}
