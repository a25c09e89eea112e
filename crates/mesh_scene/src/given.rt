//! What a line gives a node, and a frame that is delivered again.

ghost use Rattle.std.specs.Prelude.{◌≡◌, [], None, Some, IfSome, IsNone};
ghost use Rattle.mesh_model.specs.declared.line_form.Command.TheVariants as command;
ghost use Rattle.mesh_model.specs.Net.Limits.{scenario_setup};
ghost use Rattle.mesh_net.specs.Reached.{IsOfLine};
ghost use Rattle.mesh_node.specs.NodeStands.{given_by};
ghost use Rattle.mesh_scene.specs.AnswersCommand.{AnswersCommand, AnswersFrom};
ghost use Rattle.mesh_scene.specs.SceneStands.{IsSomewhere, SceneStands};
ghost use Rattle.mesh_scene.specs.Inner.AtNodes.{given_apart, given_at, given_of, given_step};

use crate::fault::{LineFault, refused};
use crate::scene::Scene;
use mesh_base::{Key, Mac, Vid};
use mesh_model::{Command, Refusal};
use mesh_node::Input;
use mesh_show::{Choosable, put_events};

/// The name of the node that a command gives something, and what it gives, where it asks no more of
/// the scene than a node of that name.
pub fn given_of(command: &Command) -> Option<(&[u8], Input<'_>)>
    ensures some { IfSome result (λ given.
        given_of command.now ≡ Some (given.0.now, given_by 0 given.1)) }
    ensures none { IsNone result → given_of command.now ≡ None }
    ensures line { IfSome result (λ given. IsOfLine (given_by 0 given.1)) }
{
    match command {
        Command::Join { node, key } => Some((node.as_slice(), Input::Join { key: *key })),
        Command::Leave { node, key } => Some((node.as_slice(), Input::Leave { key: *key })),
        Command::Wifi { node, on } => Some((node.as_slice(), Input::Wifi(*on))),
        Command::GwOff { node } => Some((node.as_slice(), Input::GwOff)),
        Command::GwServer { node, down, up } => {
            let input = Input::GwServer {
                down: *down,
                up: *up,
            };
            Some((node.as_slice(), input))
        }
        Command::GwClient { node, policy } => Some((node.as_slice(), Input::GwClient(*policy))),
        Command::Mcast { node, flags } => Some((node.as_slice(), Input::Mcast(*flags))),
        Command::Dat { node, on } => Some((node.as_slice(), Input::Dat(*on))),
        Command::Frag { node, longest } => Some((node.as_slice(), Input::Frag(*longest))),
        Command::Vis { node, on } => Some((node.as_slice(), Input::Vis(*on))),
        Command::Alfred { node, mode } => Some((node.as_slice(), Input::Alfred(*mode))),
        Command::Put {
            node,
            type_no,
            version,
            text,
        } => {
            let input = Input::Put {
                type_no: *type_no,
                version: *version,
                text: text.as_slice(),
            };
            Some((node.as_slice(), input))
        }
        Command::Get { node, type_no } => {
            Some((node.as_slice(), Input::Get { type_no: *type_no }))
        }
        Command::Nothing
        | Command::Algo(_)
        | Command::Node { .. }
        | Command::Link { .. }
        | Command::Lan { .. }
        | Command::Frame { .. }
        | Command::Gone { .. }
        | Command::Arp { .. }
        | Command::Dhcp { .. }
        | Command::Ping { .. }
        | Command::Trace { .. }
        | Command::Reboot { .. }
        | Command::Run { .. }
        | Command::Deliver { .. }
        | Command::Show { .. }
        | Command::Decode { .. } => None,
    }
}

impl<A: Choosable + Drop> Scene<A> {
    /// Gives the node of a name what a line gives it.
    pub fn give(
        &mut self,
        name: &[u8],
        input: &Input<'_>,
        text: &mut Vec<u8>,
    ) -> Result<(), LineFault>
        requires somewhere { IsSomewhere A.algorithm A.queries A.stands self.old }
        requires line { IsOfLine (given_by 0 input.now) }
        requires empty { text.old.items ≡ [] }
        ensures { AnswersFrom (SceneStands A.algorithm A.queries A.stands) self.old self.new
            (given_at (scenario_setup A.queries) name.now (given_by 0 input.now))
            text.new.items result }
    {
        let place = self.node_place(name)?;
        self.give_node(place, input, text)
    }

    /// `dhcp NODE MAC VID TEXT`
    pub fn dhcp(
        &mut self,
        name: &[u8],
        key: Key,
        call: &[u8],
        text: &mut Vec<u8>,
    ) -> Result<(), LineFault>
        requires somewhere { IsSomewhere A.algorithm A.queries A.stands self.old }
        requires empty { text.old.items ≡ [] }
        ensures { AnswersCommand A.algorithm A.queries A.stands self.old self.new
            (command.Dhcp name.now key call.now) text.new.items result }
    {
        let input = Input::Dhcp { key, text: call };
        self.give_apart(name, &input, text)
    }

    /// `arp NODE MAC IP1 IP2 VID`
    pub fn arp(
        &mut self,
        name: &[u8],
        mac: Mac,
        own_ip: u32,
        asked_ip: u32,
        vid: Vid,
        text: &mut Vec<u8>,
    ) -> Result<(), LineFault>
        requires somewhere { IsSomewhere A.algorithm A.queries A.stands self.old }
        requires empty { text.old.items ≡ [] }
        ensures { AnswersCommand A.algorithm A.queries A.stands self.old self.new
            (command.Arp name.now mac own_ip asked_ip vid) text.new.items result }
    {
        let input = Input::Arp {
            mac,
            own_ip,
            asked_ip,
            vid,
        };
        self.give_apart(name, &input, text)
    }

    /// `reboot NODE`
    pub fn reboot(&mut self, name: &[u8], text: &mut Vec<u8>) -> Result<(), LineFault>
        requires somewhere { IsSomewhere A.algorithm A.queries A.stands self.old }
        requires empty { text.old.items ≡ [] }
        ensures { AnswersCommand A.algorithm A.queries A.stands self.old self.new
            (command.Reboot name.now) text.new.items result }
    {
        self.give_apart(name, &Input::Reboot, text)
    }

    /// Gives the node of a name what a line gives it, where that is no gateway of a LAN.
    fn give_apart(
        &mut self,
        name: &[u8],
        input: &Input<'_>,
        text: &mut Vec<u8>,
    ) -> Result<(), LineFault>
        requires somewhere { IsSomewhere A.algorithm A.queries A.stands self.old }
        requires line { IsOfLine (given_by 0 input.now) }
        requires empty { text.old.items ≡ [] }
        ensures { AnswersFrom (SceneStands A.algorithm A.queries A.stands) self.old self.new
            (given_apart (scenario_setup A.queries) name.now (given_by 0 input.now))
            text.new.items result }
    {
        let place = self.node_place(name)?;
        if self.net.is_gateway(place) {
            return Err(refused(Refusal::Attached));
        }
        self.give_node(place, input, text)
    }

    /// Gives the node at a place what a line gives it.
    pub fn give_node(
        &mut self,
        place: u32,
        input: &Input<'_>,
        text: &mut Vec<u8>,
    ) -> Result<(), LineFault>
        requires somewhere { IsSomewhere A.algorithm A.queries A.stands self.old }
        requires line { IsOfLine (given_by 0 input.now) }
        requires empty { text.old.items ≡ [] }
        ensures { AnswersFrom (SceneStands A.algorithm A.queries A.stands) self.old self.new
            (given_step (scenario_setup A.queries) (given_by 0 input.now) place)
            text.new.items result }
    {
        self.events.cut(0);
        self.net.input(place, input, &mut self.events)?;
        put_events(text, &self.names, &self.events)?;
        Ok(())
    }

    /// `deliver N`
    pub fn deliver(&mut self, number: u64, text: &mut Vec<u8>) -> Result<(), LineFault>
        requires somewhere { IsSomewhere A.algorithm A.queries A.stands self.old }
        requires empty { text.old.items ≡ [] }
        ensures { AnswersCommand A.algorithm A.queries A.stands self.old self.new
            (command.Deliver number) text.new.items result }
    {
        if number == 0 {
            return Err(refused(Refusal::NoSuchFrame));
        }
        if number > u64::from(self.net.sent()) {
            return Err(refused(Refusal::NoSuchFrame));
        }
        self.events.cut(0);
        self.net.deliver(number as u32, &mut self.events)?;
        put_events(text, &self.names, &self.events)?;
        Ok(())
    }
}
