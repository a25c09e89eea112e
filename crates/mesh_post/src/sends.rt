ghost use Rattle.std.specs.Prelude.{◌≡◌, ◌∷◌, [], ◌++◌, ◌≤◌, ◌<◌, List, length, filter, slice_get, Some, None, IfSome, IfErr, ◌+◌, ◌*◌, ◌^◌, OnOk, OnErr};
ghost use Rattle.mesh_base.specs.declared.event.Event.{Event};
ghost use Rattle.mesh_model.specs.Net.Mesh.{NetLink, Mesh};
ghost use Rattle.mesh_post.specs.declared.row.Sending.{Sending};
ghost use Rattle.mesh_base.specs.declared.event.Event.TheVariants.{FrameSent};
ghost use Rattle.mesh_model.specs.Text.Events.{is_shown};
ghost use Rattle.mesh_model.specs.declared.happening.Happening.{Happening};
ghost use Rattle.mesh_model.specs.declared.act.Act.TheVariants.{Link};
ghost use Rattle.node_ground.specs.Errors.{HasPortCause};
ghost use Rattle.mesh_post.specs.Kept.{PostStands};
ghost use Rattle.mesh_post.specs.Sent.{Amid, AreLow, Carries, Grew, HasRoom, HasRoomFor, IsSending, KeepsAll, Sends, actor_of, sent_on, sent_on_all, InStep, SentAll, Took, chosen_at, chosen_ways, passed_by, passed_more};
ghost use Rattle.mesh_post.specs.Lanes.{LaneIs};
ghost use Rattle.mesh_post.specs.Refused.{Enters, IsAsBefore};
ghost use Rattle.mesh_post.specs.declared.row.Lane.{Lane};

use crate::post::{Post, place_of};
use crate::posted::Posted;
use crate::row::{Lane, Parcel, Sender, Sending, Told};
use crate::shown::{is_shown, shows};
use crate::turns::set_turn;
use mesh_base::{Bytes, Event, Events, Mac, NoMemory, Reason};
use node_ground::PortErr;

/// The most frames.
const FRAMES_LIMIT: usize = 4_194_304;
/// The most bytes of frames.
const BYTES_LIMIT: u64 = 536_870_912;

impl Post {
    // Carries out an act on links, all of its frames or none.
    pub(crate) fn put(
        &mut self,
        log: &mut Events,
        sender: Sender,
        to: Option<Mac>,
        reason: Option<Reason>,
        bytes: Bytes,
    ) -> Result<(), PortErr>
        ensures taken { OnOk result
            (Took sender (Link to reason bytes) self.old self.new log.old log.new) }
        ensures within { OnOk result
            (passed_by self.old sender.place (Link to reason bytes) ≡ None) }
        ensures cause { IfErr result
            (HasPortCause (passed_by self.old sender.place (Link to reason bytes))) }
        ensures refused { OnErr result (IsAsBefore self.old self.new) }
        ensures untold { OnErr result (log.new ≡ log.old) }
        ensures grew { Grew log.old log.new }
        ensures choice { self.new.choice ≡ self.old.choice }
    {
        let count = self.count(sender.place, to);
        self.check_room(count, bytes.len())?;
        if count == 0 {
            return Ok(());
        }
        let mark = self.mark();
        let told = log.len();
        match self.send_all(log, sender, to, reason, bytes) {
            Ok(()) => Ok(()),
            Err(NoMemory) => {
                self.take_back(mark);
                log.cut(told);
                Err(PortErr::Memory)
            }
        }
    }

    // Tells of an event, where it is shown.
    pub fn print(&self, log: &mut Events, event: Event) -> Result<(), NoMemory>
        ensures ok { OnOk result
            (log.new ≡ log.old ++ filter (is_shown self.now.choice) (event ∷ [])) }
        ensures err { OnErr result (log.new ≡ log.old) }
    {
        if is_shown(self.choice, &event) {
            log.push(event)?;
        }
        Ok(())
    }

    // Refuses so many more frames of so many bytes, where they would pass a limit.
    pub(crate) fn check_room(&self, count: usize, size: usize) -> Result<(), PortErr>
        ensures within { OnOk result (passed_more self.now count size ≡ None) }
        ensures cause { IfErr result (HasPortCause (passed_more self.now count size)) }
    {
        let frames = self.frames.len();
        let puts = self.puts.as_slice().len();
        if frames.saturating_add(puts).saturating_add(count) > FRAMES_LIMIT {
            return Err(PortErr::Frames);
        }
        let more = (count as u64).saturating_mul(size as u64);
        if self.bytes.saturating_add(more) > BYTES_LIMIT {
            return Err(PortErr::FrameBytes);
        }
        Ok(())
    }

    // Sends bytes on all links of a node on which they go.
    fn send_all(
        &mut self,
        log: &mut Events,
        sender: Sender,
        to: Option<Mac>,
        reason: Option<Reason>,
        bytes: Bytes,
    ) -> Result<(), NoMemory>
        ensures sent { (older : List Sending) (last : Happening) (ticks : List Happening)
            (mesh : Mesh) → InStep self.old older last ticks mesh →
            HasRoomFor mesh sender.now (length (chosen_ways self.old sender.place to))
            (length bytes) →
            AreLow (chosen_ways self.old sender.place to) mesh → last.moment ≤ sender.now →
            OnOk result (SentAll self.old.choice self.new older last ticks mesh
            (sent_on_all (actor_of sender) reason bytes
            (chosen_ways self.old sender.place to) mesh) log.old log.new) }
        ensures enters { Enters self.old self.new }
        ensures grew { Grew log.old log.new }
        ensures choice { self.new.choice ≡ self.old.choice }
    {
        let sending = place_of(self.older.saturating_add(self.fresh.as_slice().len()))?;
        let parcel = Parcel { sending, reason };
        self.carry_all(log, sender, to, parcel, bytes.as_slice())?;
        let root = sender.root;
        self.fresh.push(Sending { root, bytes })?;
        Ok(())
    }

    // Sends the bytes of a sending on all links of a node on which they go.
    fn carry_all(
        &mut self,
        log: &mut Events,
        sender: Sender,
        to: Option<Mac>,
        parcel: Parcel,
        bytes: &[u8],
    ) -> Result<(), NoMemory>
        ensures sent { (sendings : List Sending) (last : Happening) (ticks : List Happening)
            (mesh : Mesh) → Amid self.old sendings last ticks mesh →
            IsSending sendings parcel.sending bytes.now sender.root →
            HasRoomFor mesh sender.now (length (chosen_ways self.old sender.place to))
            (length bytes.now) →
            AreLow (chosen_ways self.old sender.place to) mesh → last.moment ≤ sender.now →
            OnOk result (Sends self.old.choice self.new sendings last ticks mesh
            (sent_on_all (actor_of sender) parcel.reason bytes.now
            (chosen_ways self.old sender.place to) mesh) log.old log.new) }
        ensures enters { Enters self.old self.new }
        ensures grew { Grew log.old log.new }
        ensures kept { KeepsAll self.old self.new }
    {
        for i in 0..self.way_count(sender.place) {
            if let Some(way) = self.chosen_at(sender.place, i, to) {
                self.carry(log, sender, parcel, bytes, way)?;
            }
        }
        Ok(())
    }

    // Sends the bytes of a sending on the link at a place.
    fn carry(
        &mut self,
        log: &mut Events,
        sender: Sender,
        parcel: Parcel,
        bytes: &[u8],
        way: u32,
    ) -> Result<(), NoMemory>
        ensures sent { (sendings : List Sending) (last : Happening) (ticks : List Happening)
            (mesh : Mesh) (link : NetLink) → Amid self.old sendings last ticks mesh →
            slice_get mesh.links way ≡ Some link →
            IsSending sendings parcel.sending bytes.now sender.root →
            HasRoom mesh sender.now (length bytes.now) → last.moment ≤ sender.now →
            OnOk result (Sends self.old.choice self.new sendings last ticks mesh
            (sent_on (actor_of sender) parcel.reason bytes.now way mesh) log.old log.new) }
        ensures enters { Enters self.old self.new }
        ensures grew { Grew log.old log.new }
        ensures kept { KeepsAll self.old self.new }
    {
        let Some(lane) = self.lane(way) else {
            return Ok(());
        };
        self.enter(sender, parcel, lane, bytes.len(), way)?;
        let told = Told {
            number: place_of(self.frames.len())?,
            end: lane.end,
            reason: parcel.reason,
        };
        self.tell(log, sender, told, bytes)?;
        Ok(())
    }

    // What the link at a place does with its next frame.
    fn lane(&self, way: u32) -> Option<Lane>
        ensures stands { (sendings : List Sending) (mesh : Mesh) (link : NetLink) →
            PostStands self.now sendings mesh → slice_get mesh.links way ≡ Some link →
            (lane : Lane) × (result ≡ Some lane) × LaneIs mesh way link lane }
        ensures turn { IfSome result
            (λ lane. slice_get self.now.turns.items way ≡ Some lane.turn) }
    {
        let row = self.rows.get(way)?;
        let turn = *self.turns.get(way as usize)?;
        Some(Lane {
            turn,
            mark: row.pattern.mark(turn),
            delay: row.delay,
            end: row.end,
        })
    }

    // Notes a frame of so many bytes on the link at a place, and what is to come of it. The turn of
    // the link comes last, so that a frame that is kept has one, and no other has.
    fn enter(
        &mut self,
        sender: Sender,
        parcel: Parcel,
        lane: Lane,
        size: usize,
        way: u32,
    ) -> Result<(), NoMemory>
        requires { slice_get self.old.turns.items way ≡ Some lane.turn }
        ensures carries { sender.now + 2 * lane.delay < 2 ^ 64 →
            self.old.bytes + size < 2 ^ 64 →
            OnOk result (Carries self.old self.new sender parcel.sending size way lane) }
        ensures enters { Enters self.old self.new }
        ensures kept { KeepsAll self.old self.new }
    {
        let place = place_of(self.frames.len())?;
        let carried = lane.turn.checked_add(1).ok_or(NoMemory)?;
        self.queue.wait(lane.mark, place, sender.now, lane.delay)?;
        self.frames.push(Posted {
            link: way,
            sending: parcel.sending,
        })?;
        set_turn(&mut self.turns, way, carried);
        self.bytes = self.bytes.saturating_add(size as u64);
        Ok(())
    }

    // Tells of a frame that was sent, where it is shown.
    fn tell(
        &self,
        log: &mut Events,
        sender: Sender,
        told: Told,
        bytes: &[u8],
    ) -> Result<(), NoMemory>
        ensures ok { OnOk result (log.new ≡ log.old ++ filter (is_shown self.now.choice)
            (FrameSent told.number sender.now sender.mac told.end told.reason bytes.now
            ∷ [])) }
        ensures err { OnErr result (log.new ≡ log.old) }
    {
        if !shows(self.choice, bytes) {
            return Ok(());
        }
        let bytes = Bytes::from_slice(self.alloc, bytes)?;
        log.push(Event::FrameSent {
            number: told.number,
            moment: sender.now,
            from: sender.mac,
            to: told.end,
            reason: told.reason,
            bytes,
        })?;
        Ok(())
    }
}
