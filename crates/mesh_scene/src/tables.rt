//! The table of a node that a line shows.

ghost use Rattle.std.specs.Prelude.{◌≡◌, [], IfErr, IfOk};
ghost use Rattle.mesh_model.specs.declared.line_form.Command.TheVariants as command;
ghost use Rattle.mesh_model.specs.Run.Names.{OfNode};
ghost use Rattle.mesh_model.specs.Run.State.{State};
ghost use Rattle.mesh_scene.specs.AnswersCommand.{AnswersCommand};
ghost use Rattle.mesh_scene.specs.Inner.AtNodes.{IsNameFault, IsNodeOf};
ghost use Rattle.mesh_scene.specs.SceneStands.{IsSomewhere, SceneStands};

use crate::fault::LineFault;
use crate::scene::Scene;
use mesh_model::Table;
use mesh_node::Node;
use mesh_show::{Choosable, show_table};

impl<A: Choosable + Drop> Scene<A> {
    /// `show NODE T`
    pub fn show(&self, name: &[u8], table: Table, text: &mut Vec<u8>) -> Result<(), LineFault>
        requires somewhere { IsSomewhere A.algorithm A.queries A.stands self.now }
        requires empty { text.old.items ≡ [] }
        ensures { AnswersCommand A.algorithm A.queries A.stands self.now self.now
            (command.Show name.now table) text.new.items result }
    {
        let node = self.node_of(name)?;
        let now = self.net.now();
        show_table(self.alloc, node, &self.names, name, table, now, text)?;
        Ok(())
    }

    /// The node of a name.
    fn node_of(&self, name: &[u8]) -> Result<&Node<A>, LineFault>
        requires somewhere { IsSomewhere A.algorithm A.queries A.stands self.now }
        ensures found { (state : State) →
            SceneStands A.algorithm A.queries A.stands self.now state →
            IfOk result (λ node. IsNodeOf A.queries A.stands state name.now node.now) }
        ensures unknown { (state : State) →
            SceneStands A.algorithm A.queries A.stands self.now state →
            IfErr result (IsNameFault state (OfNode name.now)) }
    {
        let place = self.node_place(name)?;
        Ok(self.net.node(place))
    }
}
