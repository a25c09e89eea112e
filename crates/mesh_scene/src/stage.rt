//! The stage: the scene of a scenario, under the routing algorithm that is chosen.

ghost use Rattle.std.specs.Prelude.{◌≡◌, ◌≤◌, false, length, nat_lt, [], is_some, IfOk, OnErr};
ghost use Rattle.mesh_model.specs.declared.line_form.Command.TheVariants as command;
ghost use Rattle.mesh_model.specs.Net.Limits.{clock_limit};
ghost use Rattle.mesh_model.specs.Net.Mesh.{begun_mesh};
ghost use Rattle.mesh_model.specs.Run.State.{State, first_state, first_watch};
ghost use Rattle.mesh_net.specs.Reached.{begun_watch};
ghost use Rattle.mesh_scene.specs.AnswersCommand.{AnswersFrom};
ghost use Rattle.mesh_scene.specs.Counts.{HasCounts};
ghost use Rattle.mesh_scene.specs.StageStands.{IsOnStage, StageStands, outcome_on_stage};

use crate::fault::{LineFault, refused};
use crate::scene::Scene;
use mesh_base::{Millis, NoMemory};
use mesh_generate::Counts;
use mesh_iv::Iv;
use mesh_model::{Algorithm, FrameChoice, Refusal};
use mesh_v::V;
use std::alloc::Global;

/// The scene of a scenario, under the routing algorithm that is chosen.
pub enum Stage {
    Iv(Scene<Iv>),
    V(Scene<V>),
}

/// Whether routes are watched with a choice of frames.
fn watches(choice: FrameChoice) -> bool
    ensures { begun_watch result ≡ first_watch choice }
{
    match choice {
        FrameChoice::Route => true,
        FrameChoice::Hidden | FrameChoice::All | FrameChoice::Client | FrameChoice::Ogm => false,
    }
}

/// The scene goes. Written out, it is one call where a stage goes, and not the parts of two scenes.
impl Drop for Stage {
    fn drop(self) {
        match self {
            Stage::Iv(_scene) => {}
            Stage::V(_scene) => {}
        }
    }
}

impl Stage {
    /// No nodes, at moment 0, under algorithm IV, with this choice of frames.
    pub fn new(alloc: Global, choice: FrameChoice) -> Stage
        ensures { StageStands result (first_state choice) }
    {
        Stage::Iv(Scene::begin(alloc, choice, watches(choice), 0))
    }

    /// The allocator.
    pub fn alloc(&self) -> Global {
        match self {
            Stage::Iv(scene) => scene.alloc,
            Stage::V(scene) => scene.alloc,
        }
    }

    /// `algo A`: the scene begins anew, at the same moment. There is nothing in it without a node.
    pub fn choose(&mut self, algorithm: Algorithm) -> Result<(), LineFault>
        requires somewhere { IsOnStage self.old }
        ensures answers { AnswersFrom StageStands self.old self.new
            (outcome_on_stage (command.Algo algorithm)) [] result }
        ensures err { OnErr result (self.new ≡ self.old) }
    {
        if self.has_nodes() {
            return Err(refused(Refusal::AlgoAfterNode));
        }
        *self = Stage::begin(
            self.alloc(),
            algorithm,
            self.choice(),
            self.is_watched(),
            self.now(),
        );
        Ok(())
    }

    /// The counts of a mesh of so many nodes, after which this text was printed.
    pub fn counts(&self, nodes: u8, text: &[u8]) -> Result<Counts, NoMemory>
        requires somewhere { IsOnStage self.now }
        ensures { (state : State) → StageStands self.now state →
            IfOk result (HasCounts nodes state text.now) }
    {
        match self {
            Stage::Iv(scene) => scene.counts(nodes, text),
            Stage::V(scene) => scene.counts(nodes, text),
        }
    }

    /// No nodes, at a moment, under an algorithm, with this choice of frames, where routes are
    /// watched or not.
    fn begin(
        alloc: Global,
        algorithm: Algorithm,
        choice: FrameChoice,
        watched: bool,
        clock: Millis,
    ) -> Stage
        requires low { clock ≤ clock_limit }
        ensures { (state : State) → state.mesh ≡ begun_mesh (begun_watch watched) →
            state.clock ≡ clock → state.algorithm ≡ algorithm → state.choice ≡ choice →
            StageStands result state }
    {
        match algorithm {
            Algorithm::Iv => Stage::Iv(Scene::begin(alloc, choice, watched, clock)),
            Algorithm::V => Stage::V(Scene::begin(alloc, choice, watched, clock)),
        }
    }

    /// Whether there is a node. Without one the mesh is the one at the begin.
    fn has_nodes(&self) -> bool
        ensures told { (state : State) → StageStands self.now state →
            result ≡ nat_lt 0 (length state.mesh.nodes) }
        ensures empty { (state : State) → StageStands self.now state →
            result ≡ false → state.mesh ≡ begun_mesh (begun_watch (is_some state.mesh.watch)) }
    {
        match self {
            Stage::Iv(scene) => scene.net.has_nodes(),
            Stage::V(scene) => scene.net.has_nodes(),
        }
    }

    /// The choice of frames.
    fn choice(&self) -> FrameChoice
        ensures { (state : State) → StageStands self.now state → result ≡ state.choice }
    {
        match self {
            Stage::Iv(scene) => scene.net.choice(),
            Stage::V(scene) => scene.net.choice(),
        }
    }

    /// Whether routes are watched.
    fn is_watched(&self) -> bool
        ensures { (state : State) → StageStands self.now state →
            result ≡ is_some state.mesh.watch }
    {
        match self {
            Stage::Iv(scene) => scene.net.is_watched(),
            Stage::V(scene) => scene.net.is_watched(),
        }
    }

    /// The clock.
    fn now(&self) -> Millis
        ensures { (state : State) → StageStands self.now state →
            (result ≡ state.clock) × (result ≤ clock_limit) }
    {
        match self {
            Stage::Iv(scene) => scene.net.now(),
            Stage::V(scene) => scene.net.now(),
        }
    }
}
