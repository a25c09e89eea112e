ghost use Rattle.std.specs.Prelude.{◌≡◌, ◌++◌, ℕ, List, filter, OnErr, OnOk, IfErr};
ghost use Rattle.mesh_codec.specs.Lans.{seen_lan};
ghost use Rattle.mesh_model.specs.Net.Inputs.{all_given};
ghost use Rattle.mesh_model.specs.Net.Lans.{gets, lan_delivered, reach_events};
ghost use Rattle.mesh_model.specs.Net.Limits.{scenario_setup};
ghost use Rattle.mesh_model.specs.Net.Mesh.{Mesh};
ghost use Rattle.mesh_model.specs.Packets.LanFrames.{client_frame_in};
ghost use Rattle.mesh_model.specs.Text.Events.{is_shown};
ghost use Rattle.mesh_model.specs.declared.happening.Happening.{Happening};
ghost use Rattle.mesh_net.specs.Given.{GiveTells};
ghost use Rattle.mesh_net.specs.Steps.{AreOnLans, Gave, HasStage, HoldsAmid, IsTickless, KeepsNet, Stage, Tried};
ghost use Rattle.mesh_net.specs.declared.seat.Seat.{Seat};
ghost use Rattle.mesh_node.specs.NodeStands.{given_by};
ghost use Rattle.mesh_post.specs.Lanes.{is_other};
ghost use Rattle.mesh_post.specs.Sent.{Grew};
ghost use Rattle.mesh_post.specs.declared.row.Sending.{Sending};

use crate::give::{Occasion, give_at};
use crate::net::Net;
use crate::seat::Seat;
use mesh_algo::Algo;
use mesh_base::{Bytes, Event, Events, Millis, NoMemory};
use mesh_codec::{LanMessage, read_lan};
use mesh_node::{Input, NodeErr};
use mesh_post::{Post, Put, place_of};

// Gives the nodes at places something, one after another.
pub(crate) fn give_all<A: Algo>(
    seats: &mut Vec<Seat<A>>,
    post: &mut Post,
    spare: &mut Vec<u8>,
    log: &mut Events,
    places: &[u32],
    now: Millis,
    input: &Input<'_>,
) -> Result<(), NodeErr>
    requires stage { HasStage A.queries A.stands seats.old.items post.old now }
    requires tickless { IsTickless input.now }
    ensures given { (older : List Sending) (last : Happening) (ticks : List Happening)
        (mesh : Mesh) (number : ℕ) →
        Stage A.queries A.stands seats.old.items post.old older last ticks now mesh →
        OnOk result (Tried A.queries A.stands seats.new.items post.new post.old.choice older last
        ticks mesh log.old log.new
        (all_given (scenario_setup A.queries) places.now now (given_by number input.now) mesh)) }
    ensures cause { (older : List Sending) (last : Happening) (ticks : List Happening)
        (mesh : Mesh) (number : ℕ) →
        Stage A.queries A.stands seats.old.items post.old older last ticks now mesh →
        IfErr result (GiveTells
        (all_given (scenario_setup A.queries) places.now now (given_by number input.now) mesh)) }
    ensures grew { Grew log.old log.new }
{
    for place in places.iter() {
        let at = Occasion {
            place: *place,
            now,
            root: 0,
        };
        give_at(seats, post, spare, log, at, input)?;
    }
    Ok(())
}

impl<A: Algo + Drop> Net<A> {
    // Gives the LAN frame at a place the gateways of its LAN that get it.
    pub(crate) fn deliver_on_lan(
        &mut self,
        place: u32,
        now: Millis,
        log: &mut Events,
    ) -> Result<(), NodeErr>
        requires { HasStage A.queries A.stands self.old.seats.items self.old.post now }
        ensures given { HoldsAmid A.queries A.stands self.old now (λ choice last ticks mesh.
            AreOnLans mesh →
            OnOk result (Gave A.queries A.stands self.new choice last ticks mesh log.old log.new
            (lan_delivered (scenario_setup A.queries) place now mesh))) }
        ensures cause { HoldsAmid A.queries A.stands self.old now (λ choice last ticks mesh.
            AreOnLans mesh →
            IfErr result (GiveTells (lan_delivered (scenario_setup A.queries) place now mesh))) }
        ensures kept { KeepsNet self.old self.new }
        ensures grew { Grew log.old log.new }
    {
        let Some(put) = self.post.put_at(place) else {
            return Ok(());
        };
        let Some((bytes, _)) = self.sent.get(put.sending) else {
            return Ok(());
        };
        let message = read_lan(bytes);
        tell_reached(&self.post, log, now, put, &message)?;
        let places = self.post.gateways(put.lan, putting_one(put, &message))?;
        let input = Input::Lan { bytes };
        give_all(
            &mut self.seats,
            &mut self.post,
            &mut self.spare,
            log,
            places.as_slice(),
            now,
            &input,
        )
    }
}

// Tells that a client frame reaches a LAN, where a gateway put it.
fn tell_reached(
    post: &Post,
    log: &mut Events,
    now: Millis,
    put: Put,
    message: &LanMessage<'_>,
) -> Result<(), NoMemory>
    ensures ok { OnOk result (log.new ≡ log.old ++ filter (is_shown post.now.choice)
        (reach_events now put.lan put.by (client_frame_in (seen_lan message.now)))) }
    ensures err { OnErr result (log.new ≡ log.old) }
{
    if put.by.is_none() {
        return Ok(());
    }
    match *message {
        LanMessage::Claims { .. } | LanMessage::Nothing => Ok(()),
        LanMessage::Carries(frame) => {
            let event = Event::Bridged {
                moment: now,
                lan: place_of((put.lan as usize).saturating_add(1))?,
                vid: frame.vid,
                src: frame.src,
                dst: frame.dst,
                text: Bytes::from_slice(post.alloc, frame.text)?,
            };
            post.print(log, event)
        }
    }
}

// The gateway that put a LAN frame, where it doesn't get it.
fn putting_one(put: Put, message: &LanMessage<'_>) -> Option<u32>
    ensures { (gateway : ℕ) →
        gets (client_frame_in (seen_lan message.now)) put.by gateway ≡ is_other result gateway }
{
    match *message {
        LanMessage::Claims { .. } | LanMessage::Nothing => None,
        LanMessage::Carries(_) => put.by,
    }
}
