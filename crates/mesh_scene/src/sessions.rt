//! Ping and traceroute: the target of a session is found by its name.

ghost use Rattle.std.specs.Prelude.{◌≡◌, [], IfErr, IfOk};
ghost use Rattle.mesh_base.specs.declared.address.Mac.{Mac};
ghost use Rattle.mesh_model.specs.Clients.Log.{Line, LineGiven};
ghost use Rattle.mesh_model.specs.Net.Mesh.{Setup};
ghost use Rattle.mesh_model.specs.declared.line_form.Command.TheVariants as command;
ghost use Rattle.mesh_model.specs.Run.State.{State};
ghost use Rattle.mesh_scene.specs.AnswersCommand.{AnswersCommand, HasLineCause};
ghost use Rattle.mesh_scene.specs.SceneStands.{IsSomewhere, SceneStands};
ghost use Rattle.mesh_scene.specs.Inner.AtNodes.{given_at, session_at};

use crate::fault::{LineFault, refused};
use crate::scene::Scene;
use mesh_base::Mac;
use mesh_model::Refusal;
use mesh_node::Input;
use mesh_show::Choosable;

impl<A: Choosable + Drop> Scene<A> {
    /// `ping NODE NODE`
    pub fn ping(&mut self, node: &[u8], target: &[u8], text: &mut Vec<u8>) -> Result<(), LineFault>
        requires somewhere { IsSomewhere A.algorithm A.queries A.stands self.old }
        requires empty { text.old.items ≡ [] }
        ensures { AnswersCommand A.algorithm A.queries A.stands self.old self.new
            (command.Ping node.now target.now) text.new.items result }
    {
        let target = self.target_of(node, target)?;
        self.give(node, &Input::Ping { target }, text)
    }

    /// `traceroute NODE NODE`
    pub fn trace(&mut self, node: &[u8], target: &[u8], text: &mut Vec<u8>) -> Result<(), LineFault>
        requires somewhere { IsSomewhere A.algorithm A.queries A.stands self.old }
        requires empty { text.old.items ≡ [] }
        ensures { AnswersCommand A.algorithm A.queries A.stands self.old self.new
            (command.Trace node.now target.now) text.new.items result }
    {
        let target = self.target_of(node, target)?;
        self.give(node, &Input::Trace { target }, text)
    }

    /// The address of the target of a session, which is another node than the one of its beginning.
    fn target_of(&self, node: &[u8], target: &[u8]) -> Result<Mac, LineFault>
        requires somewhere { IsSomewhere A.algorithm A.queries A.stands self.now }
        ensures found { (setup : Setup) (state : State) (line : Mac → LineGiven) →
            SceneStands A.algorithm A.queries A.stands self.now state →
            IfOk result (λ mac. session_at setup node.now target.now line state
            ≡ given_at setup node.now (Line (line mac)) state) }
        ensures refused { (setup : Setup) (state : State) (line : Mac → LineGiven) →
            SceneStands A.algorithm A.queries A.stands self.now state → IfErr result
            (HasLineCause state (session_at setup node.now target.now line state)) }
    {
        self.node_place(node)?;
        let place = self.node_place(target)?;
        if node == target {
            return Err(refused(Refusal::SameNode));
        }
        Ok(self.net.address(place))
    }
}
