//! The counts of a scene, for the summary of a generated mesh.

ghost use Rattle.std.specs.Prelude.{◌≡◌, ◌<◌, length, slice_get, Some, IfOk};
ghost use Rattle.mesh_model.specs.Net.Mesh.{NodeLog};
ghost use Rattle.mesh_model.specs.Run.Generated.{later_commits, ok_tables};
ghost use Rattle.mesh_model.specs.Run.State.{State};
ghost use Rattle.mesh_scene.specs.Counts.{HasCounts};
ghost use Rattle.mesh_scene.specs.SceneStands.{IsSomewhere, SceneStands};

use crate::scene::Scene;
use mesh_base::NoMemory;
use mesh_generate::{Counts, received_lines};
use mesh_show::{Choosable, ok_count};

/// The counts of one node: its commits beside commit 0, and the tables that it counts as ok.
#[derive(Clone, Copy)]
struct NodeCounts {
    commits: u64,
    ok: usize,
}

impl<A: Choosable + Drop> Scene<A> {
    /// The counts of the node at a place.
    fn node_counts(&self, place: usize) -> Result<NodeCounts, NoMemory>
        requires somewhere { IsSomewhere A.algorithm A.queries A.stands self.now }
        requires known { (state : State) →
            SceneStands A.algorithm A.queries A.stands self.now state →
            place < length state.mesh.nodes }
        ensures { (state : State) (node : NodeLog) →
            SceneStands A.algorithm A.queries A.stands self.now state →
            slice_get state.mesh.nodes place ≡ Some node → IfOk result (λ counts.
            (counts.commits ≡ later_commits node)
            × (counts.ok ≡ ok_tables state.algorithm state.clock node)) }
    {
        let node = self.net.node(place as u32);
        Ok(NodeCounts {
            commits: node.locals().last(),
            ok: ok_count(self.alloc, node, self.net.now())?,
        })
    }

    /// The counts of a mesh of so many nodes, after which this text was printed.
    pub fn counts(&self, nodes: u8, text: &[u8]) -> Result<Counts, NoMemory>
        requires somewhere { IsSomewhere A.algorithm A.queries A.stands self.now }
        ensures { (state : State) → SceneStands A.algorithm A.queries A.stands self.now state →
            IfOk result (HasCounts nodes state text.now) }
    {
        let mut commits = 0;
        let mut ok = 0;
        for place in 0..self.net.len() {
            let counts = self.node_counts(place)?;
            commits += u128::from(counts.commits);
            ok += counts.ok as u128;
        }
        Ok(Counts {
            nodes,
            frames: self.net.sent(),
            received: received_lines(text),
            commits,
            ok,
        })
    }
}
