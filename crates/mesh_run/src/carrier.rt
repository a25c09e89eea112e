//! What carries the lines of an input out, by what they are.

ghost use Rattle.std.specs.Prelude.{ℕ, List, Option, OnOk, IfOk, IfErr};
ghost use Rattle.std.specs.Io.KnownBytes.{Appends};
ghost use Rattle.mesh_model.specs.Run.State.{State};
ghost use Rattle.mesh_model.specs.declared.frame_choice.FrameChoice.{FrameChoice};
ghost use Rattle.mesh_model.specs.declared.input_kind.InputKind.{InputKind};
ghost use Rattle.mesh_model.specs.declared.input_kind.InputKind.TheVariants.{Scenario};
ghost use Rattle.mesh_run.specs.Inner.Kinds.{CarrierStands, IsReady, StateOf, first_of, outcome_of, text_at_end, text_by};
ghost use Rattle.mesh_run.specs.Inner.Lines.{CarriesLine, CountsWrites, EndFails, StandsAt};
ghost use Rattle.mesh_scene.specs.Counts.{HasCounts};

use crate::fault::Fault;
use crate::line::carry_scenario;
use crate::routes::{end_routes, take_route};
use mesh_base::{NoMemory, Sink};
use mesh_bisect::Bisect;
use mesh_generate::Counts;
use mesh_model::InputKind;
use mesh_scene::Stage;
use std::alloc::Global;

/// What carries the lines of an input out.
pub enum Carrier {
    /// Those of a scenario.
    Stage(Stage),
    /// Lines of routes.
    Bisect(Bisect),
}

/// The stage or the lines go. Written out, it is one call where a carrier goes.
impl Drop for Carrier {
    fn drop(self) {
        match self {
            Carrier::Stage(_stage) => {}
            Carrier::Bisect(_bisect) => {}
        }
    }
}

impl Carrier {
    /// Before the first line.
    pub fn new(alloc: Global, kind: InputKind) -> Carrier
        ensures stands { CarrierStands kind result (first_of kind) }
        ensures ready { IsReady result }
    {
        match kind {
            InputKind::Scenario(choice) => Carrier::Stage(Stage::new(alloc, choice)),
            InputKind::Routes => Carrier::Bisect(Bisect::new(alloc)),
        }
    }

    /// The counts of a mesh of so many nodes, after which this text was printed. Lines of routes
    /// have none.
    pub fn counts(&self, nodes: u8, text: &[u8]) -> Result<Counts, NoMemory>
        requires ready { IsReady self.now }
        ensures { (choice : FrameChoice) (state : State) →
            CarrierStands (Scenario choice) self.now state →
            IfOk result (HasCounts nodes state text.now) }
    {
        match self {
            Carrier::Stage(stage) => stage.counts(nodes, text),
            Carrier::Bisect(_) => Err(NoMemory),
        }
    }

    /// Carries the line of this number out and writes what it prints, by way of `text`.
    pub fn carry_line<K: Sink>(
        &mut self,
        text: &mut Vec<u8>,
        out: &mut K,
        line: &[u8],
        number: u64,
    ) -> Result<(), Fault>
        requires ready { IsReady self.old }
        ensures line { (kind : InputKind) → CarriesLine (text_by kind) (CarrierStands kind)
            (K.taken out.old) (K.taken out.new) self.old self.new (outcome_of kind line.now)
            number result }
        ensures faults { CountsWrites (K.faults out.old) (K.faults out.new) result }
        ensures ready { OnOk result (IsReady self.new) }
    {
        match self {
            Carrier::Stage(stage) => carry_scenario(stage, text, out, line, number),
            Carrier::Bisect(bisect) => take_route(bisect, text, out, line, number),
        }
    }

    /// Writes what the end of the input prints, by way of `text`.
    pub fn end<K: Sink>(&mut self, text: &mut Vec<u8>, out: &mut K) -> Result<(), Fault>
        ensures ok { (kind : InputKind) (base : Option (List ℕ)) (state : StateOf kind) →
            StandsAt (text_by kind) (CarrierStands kind) base (K.taken out.old) self.old state →
            OnOk result (Appends base (K.taken out.new) (text_at_end kind state)) }
        ensures failed { (kind : InputKind) (base : Option (List ℕ)) (state : StateOf kind) →
            StandsAt (text_by kind) (CarrierStands kind) base (K.taken out.old) self.old state →
            IfErr result (EndFails base (K.taken out.new) (text_at_end kind state)) }
        ensures faults { CountsWrites (K.faults out.old) (K.faults out.new) result }
    {
        match self {
            Carrier::Stage(_) => Ok(()),
            Carrier::Bisect(bisect) => end_routes(bisect, text, out),
        }
    }
}
