//! The nodes and links that join a scene.

ghost use Rattle.std.specs.Prelude.{◌≡◌, false, []};
ghost use Rattle.mesh_laws.specs.LineLaws.{HasLinkRanges};
ghost use Rattle.mesh_model.specs.declared.line_form.Command.TheVariants as command;
ghost use Rattle.mesh_scene.specs.AnswersCommand.{AnswersCommand};
ghost use Rattle.mesh_scene.specs.SceneStands.{IsSomewhere};

use crate::fault::{LineFault, refused};
use crate::link_ends::LinkEnds;
use crate::scene::Scene;
use mesh_base::Mac;
use mesh_model::Refusal;
use mesh_net::Link;
use mesh_show::Choosable;

impl<A: Choosable + Drop> Scene<A> {
    /// `node NAME MAC`
    pub fn add_node(&mut self, name: &[u8], mac: Mac) -> Result<(), LineFault>
        requires somewhere { IsSomewhere A.algorithm A.queries A.stands self.old }
        ensures { AnswersCommand A.algorithm A.queries A.stands self.old self.new
            (command.Node name.now mac) [] result }
    {
        if self.is_taken(name) {
            return Err(refused(Refusal::NameTaken));
        }
        if self.names.node_name(mac).is_some() {
            return Err(refused(Refusal::AddressTaken));
        }
        self.net.add_node(mac, A::begin(self.alloc, mac))?;
        self.names.add_node(mac, name)?;
        Ok(())
    }

    /// `link A B`, with options
    pub fn add_link(&mut self, from: &[u8], to: &[u8], link: &Link) -> Result<(), LineFault>
        requires somewhere { IsSomewhere A.algorithm A.queries A.stands self.old }
        requires ranges { HasLinkRanges link.now.delay link.now.pattern link.now.tp }
        ensures { AnswersCommand A.algorithm A.queries A.stands self.old self.new
            (command.Link from.now to.now link.now.delay link.now.pattern link.now.tp) [] result }
    {
        let start = self.node_place(from)?;
        let end = self.node_place(to)?;
        if from == to {
            return Err(refused(Refusal::SameNode));
        }
        let ends = LinkEnds {
            from: start,
            to: end,
        };
        if self.is_linked(ends) {
            return Err(refused(Refusal::LinkTaken));
        }
        self.net.add_link(start, end, link)?;
        self.ends.push(ends)?;
        Ok(())
    }
}
