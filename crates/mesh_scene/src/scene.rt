//! The scene: the net of a scenario, the names of its nodes and the ends of its links.

ghost use Rattle.std.specs.Prelude.{◌≡◌, ◌≤◌, ◌==◌, ◌&&◌};
ghost use Rattle.std.specs.List.{list_any};
ghost use Rattle.mesh_model.specs.Net.Limits.{clock_limit};
ghost use Rattle.mesh_model.specs.Net.Mesh.{begun_mesh};
ghost use Rattle.mesh_model.specs.Run.State.{State};
ghost use Rattle.mesh_net.specs.NetStands.{NetStands};
ghost use Rattle.mesh_net.specs.Reached.{begun_watch};
ghost use Rattle.mesh_scene.specs.SceneStands.{SceneStands};

use crate::link_ends::LinkEnds;
use mesh_algo::Algo;
use mesh_base::{Events, Millis, Names};
use mesh_model::FrameChoice;
use mesh_net::Net;
use mesh_show::Choosable;
use std::alloc::Global;

/// The mesh of a scenario under a routing algorithm, and what lines ask of it.
#[derive(Drop)]
pub struct Scene<A: Algo> {
    pub alloc: Global,
    pub net: Net<A>,
    pub names: Names,
    /// The ends of the links, in their order.
    pub ends: Vec<LinkEnds>,
    /// What happens in the step, or the slice of a run, that is carried out.
    pub events: Events,
}

/// A net without nodes, at a moment, with this choice of frames, where routes are watched or not.
fn begun_net<A: Choosable + Drop>(
    alloc: Global,
    choice: FrameChoice,
    watched: bool,
    clock: Millis,
) -> Net<A>
    requires { clock ≤ clock_limit }
    ensures { NetStands A.queries A.stands result choice clock (begun_mesh (begun_watch watched)) }
{
    let mut net = Net::begin(alloc, clock);
    net.show_frames(choice);
    if watched {
        net.watch_routes();
    }
    net
}

impl<A: Choosable + Drop> Scene<A> {
    /// No nodes, at a moment, with this choice of frames, where routes are watched or not.
    pub fn begin(alloc: Global, choice: FrameChoice, watched: bool, clock: Millis) -> Scene<A>
        requires low { clock ≤ clock_limit }
        ensures { (state : State) → state.mesh ≡ begun_mesh (begun_watch watched) →
            state.clock ≡ clock → state.algorithm ≡ A.algorithm → state.choice ≡ choice →
            SceneStands A.algorithm A.queries A.stands result state }
    {
        Scene {
            alloc,
            net: begun_net(alloc, choice, watched, clock),
            names: Names::new(alloc),
            ends: Vec::new(alloc),
            events: Events::new(alloc),
        }
    }

    /// Whether a link has these ends.
    pub fn is_linked(&self, ends: LinkEnds) -> bool
        ensures { result ≡ list_any
            (λ other. other.from == ends.from && other.to == ends.to) self.now.ends.items }
    {
        let mut others = self.ends.iter();
        others.any(|other| other.from == ends.from && other.to == ends.to)
    }
}
