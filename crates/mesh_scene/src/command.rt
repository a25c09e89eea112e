//! The commands: each is carried out by what stands for it.

ghost use Rattle.std.specs.Prelude.{◌≡◌, Bool, true, [], None};
ghost use Rattle.mesh_laws.specs.LineLaws.{IsInRange};
ghost use Rattle.mesh_scene.specs.AnswersCommand.{AnswersCommand, HasGateways, is_for_scene};
ghost use Rattle.mesh_scene.specs.Inner.AtNodes.{given_of};
ghost use Rattle.mesh_scene.specs.SceneStands.{IsSomewhere};

use crate::fault::LineFault;
use crate::given::given_of;
use crate::scene::Scene;
use batctl_text::decode_text;
use mesh_codec::ClientFrame;
use mesh_model::Command;
use mesh_net::Link;
use mesh_show::Choosable;

impl<A: Choosable + Drop> Scene<A> {
    /// Carries a command out, other than `algo` and `run`, and appends what it prints.
    pub fn carry_out(&mut self, command: Command, text: &mut Vec<u8>) -> Result<(), LineFault>
        requires somewhere { IsSomewhere A.algorithm A.queries A.stands self.old }
        requires empty { text.old.items ≡ [] }
        requires ranges { IsInRange command }
        requires gateways { HasGateways command }
        requires other { is_for_scene command ≡ true }
        ensures { AnswersCommand A.algorithm A.queries A.stands self.old self.new
            command text.new.items result }
    {
        if let Some((name, input)) = given_of(&command) {
            return self.give(name, &input, text);
        }
        self.carry_other(command, text)
    }

    /// Carries a command out that gives no node anything, other than `algo` and `run`.
    fn carry_other(&mut self, command: Command, text: &mut Vec<u8>) -> Result<(), LineFault>
        requires somewhere { IsSomewhere A.algorithm A.queries A.stands self.old }
        requires empty { text.old.items ≡ [] }
        requires ranges { IsInRange command }
        requires gateways { HasGateways command }
        requires other { is_for_scene command ≡ true }
        requires none { given_of command ≡ None }
        ensures { AnswersCommand A.algorithm A.queries A.stands self.old self.new
            command text.new.items result }
    {
        match command {
            Command::Nothing => Ok(()),
            Command::Node { name, mac } => self.add_node(name.as_slice(), mac),
            Command::Link {
                from,
                to,
                delay,
                pattern,
                throughput,
            } => {
                let link = Link {
                    delay,
                    pattern,
                    tp: throughput,
                };
                self.add_link(from.as_slice(), to.as_slice(), &link)
            }
            Command::Lan { name, gateways } => self.add_lan(name.as_slice(), &gateways),
            Command::Frame {
                place,
                src,
                dst,
                vid,
                text: carried,
            } => {
                let frame = ClientFrame {
                    dst,
                    src,
                    vid,
                    text: carried.as_slice(),
                };
                self.frame(place.as_slice(), &frame, text)
            }
            Command::Gone { place, key } => self.gone(place.as_slice(), key, text),
            Command::Arp {
                node,
                mac,
                own_ip,
                asked_ip,
                vid,
            } => self.arp(node.as_slice(), mac, own_ip, asked_ip, vid, text),
            Command::Dhcp {
                node,
                key,
                text: call,
            } => self.dhcp(node.as_slice(), key, call.as_slice(), text),
            Command::Ping { node, target } => self.ping(node.as_slice(), target.as_slice(), text),
            Command::Trace { node, target } => self.trace(node.as_slice(), target.as_slice(), text),
            Command::Reboot { node } => self.reboot(node.as_slice(), text),
            Command::Deliver { number } => self.deliver(number, text),
            Command::Show { node, table } => self.show(node.as_slice(), table, text),
            Command::Decode { bytes } => {
                decode_text(text, bytes.as_slice())?;
                Ok(())
            }
            // These give a node something.
            Command::Join { .. }
            | Command::Leave { .. }
            | Command::Wifi { .. }
            | Command::GwOff { .. }
            | Command::GwServer { .. }
            | Command::GwClient { .. }
            | Command::Mcast { .. }
            | Command::Dat { .. }
            | Command::Frag { .. }
            | Command::Vis { .. }
            | Command::Alfred { .. }
            | Command::Put { .. }
            | Command::Get { .. } => unreachable!(),
            // These change more than the scene.
            Command::Algo(_) | Command::Run { .. } => unreachable!(),
        }
    }
}
