ghost use Rattle.std.specs.Prelude.{◌≡◌, ◌∷◌, [], ◌++◌, ◌≤◌, ◌<◌, ◌^◌, ◌+◌, List, length, filter, slice_get, slice_index_or, Some, None, IfOk, IfErr, OnOk, OnErr};
ghost use Rattle.mesh_base.specs.declared.address.Mac.{Mac};
ghost use Rattle.mesh_base.specs.declared.event.Event.TheVariants.{LanSent};
ghost use Rattle.mesh_model.specs.Net.Limits.{clock_limit};
ghost use Rattle.mesh_model.specs.Net.Mesh.{LanPut, Mesh};
ghost use Rattle.mesh_model.specs.Routes.Queries.{Queries};
ghost use Rattle.mesh_model.specs.Text.Events.{is_shown};
ghost use Rattle.mesh_model.specs.declared.act.Act.TheVariants.{Lan};
ghost use Rattle.mesh_model.specs.declared.happening.Happening.{Happening};
ghost use Rattle.mesh_post.specs.Lanes.{is_other};
ghost use Rattle.mesh_post.specs.Refused.{Enters, IsAsBefore};
ghost use Rattle.mesh_post.specs.Sent.{CarriesPut, Grew, HasCome, InStep, Took, lan_among, passed_by, passed_more};
ghost use Rattle.mesh_post.specs.declared.row.Sending.{Sending};
ghost use Rattle.node_ground.specs.Errors.{HasPortCause};

use crate::post::{Post, place_of};
use crate::row::{Put, Sender, Sending};
use crate::shown::shows_lan;
use mesh_base::{Bytes, Event, Events, Millis, NoMemory};
use node_ground::PortErr;

/// What is put on a LAN: the place of the LAN, that of the gateway that puts it, where one does,
/// and when.
#[derive(Clone, Copy, Debug)]
pub struct Putting {
    pub lan: u32,
    pub by: Option<u32>,
    pub now: Millis,
}

impl Post {
    // Puts bytes on the LAN of a node, where it has one.
    pub(crate) fn put_at_gateway(
        &mut self,
        log: &mut Events,
        sender: Sender,
        bytes: Bytes,
    ) -> Result<(), PortErr>
        ensures taken { OnOk result (Took sender (Lan bytes) self.old self.new log.old log.new) }
        ensures within { OnOk result (passed_by self.old sender.place (Lan bytes) ≡ None) }
        ensures cause { IfErr result (HasPortCause (passed_by self.old sender.place (Lan bytes))) }
        ensures refused { OnErr result (IsAsBefore self.old self.new) }
        ensures untold { OnErr result (log.new ≡ log.old) }
        ensures grew { Grew log.old log.new }
        ensures choice { self.new.choice ≡ self.old.choice }
    {
        let Some(at) = self.lan_of(sender.place) else {
            return Ok(());
        };
        let Ok(lan) = place_of(at) else {
            return Err(PortErr::Memory);
        };
        let putting = Putting {
            lan,
            by: Some(sender.place),
            now: sender.now,
        };
        self.put_on(log, putting, bytes)?;
        Ok(())
    }

    /// Puts bytes on a LAN, unless they would pass a limit.
    pub fn put_on(
        &mut self,
        log: &mut Events,
        putting: Putting,
        bytes: Bytes,
    ) -> Result<(), PortErr>
        ensures put { (queries : Mac → Queries) (older : List Sending) (last : Happening)
            (ticks : List Happening) (mesh : Mesh) → InStep self.old older last ticks mesh →
            last.moment ≤ putting.now → putting.now ≤ clock_limit →
            OnOk result (HasCome queries self.old.choice
            (record { lan = putting.lan; moment = putting.now; bytes = bytes; by = putting.by })
            self.new older last ticks mesh log.old log.new) }
        ensures within { OnOk result (passed_more self.old 1 (length bytes) ≡ None) }
        ensures cause { IfErr result (HasPortCause (passed_more self.old 1 (length bytes))) }
        ensures refused { OnErr result (IsAsBefore self.old self.new) }
        ensures untold { OnErr result (log.new ≡ log.old) }
        ensures grew { Grew log.old log.new }
        ensures choice { self.new.choice ≡ self.old.choice }
    {
        self.check_room(1, bytes.len())?;
        let mark = self.mark();
        let told = log.len();
        match self.carry_put(log, putting, bytes) {
            Ok(()) => Ok(()),
            Err(NoMemory) => {
                self.take_back(mark);
                log.cut(told);
                Err(PortErr::Memory)
            }
        }
    }

    // Puts bytes on a LAN.
    fn carry_put(
        &mut self,
        log: &mut Events,
        putting: Putting,
        bytes: Bytes,
    ) -> Result<(), NoMemory>
        ensures carries { self.old.bytes + length bytes < 2 ^ 64 → putting.now < 2 ^ 63 →
            OnOk result (CarriesPut self.old self.new
            (record { lan = putting.lan; moment = putting.now; bytes = bytes; by = putting.by })) }
        ensures told { OnOk result (log.new ≡ log.old ++ filter (is_shown self.old.choice)
            (LanSent (length self.new.puts.items) putting.now (putting.lan + 1) bytes ∷ [])) }
        ensures enters { Enters self.old self.new }
        ensures grew { Grew log.old log.new }
        ensures choice { self.new.choice ≡ self.old.choice }
    {
        let place = place_of(self.puts.len())?;
        let sending = place_of(self.older.saturating_add(self.fresh.as_slice().len()))?;
        self.queue.wait_on_lan(place, putting.now)?;
        self.puts.push(Put {
            lan: putting.lan,
            sending,
            by: putting.by,
        })?;
        self.bytes = self.bytes.saturating_add(bytes.len() as u64);
        self.tell_put(log, putting, bytes.as_slice())?;
        self.fresh.push(Sending { root: 0, bytes })?;
        Ok(())
    }

    // Tells of the last LAN frame, where it is shown.
    fn tell_put(&self, log: &mut Events, putting: Putting, bytes: &[u8]) -> Result<(), NoMemory>
        ensures ok { OnOk result (log.new ≡ log.old ++ filter (is_shown self.now.choice)
            (LanSent (length self.now.puts.items) putting.now (putting.lan + 1) bytes.now ∷ [])) }
        ensures err { OnErr result (log.new ≡ log.old) }
    {
        if !shows_lan(self.choice) {
            return Ok(());
        }
        log.push(Event::LanSent {
            number: place_of(self.puts.len())?,
            moment: putting.now,
            lan: place_of((putting.lan as usize).saturating_add(1))?,
            bytes: Bytes::from_slice(self.alloc, bytes)?,
        })?;
        Ok(())
    }

    /// The LAN frame at a place.
    pub fn put_at(&self, place: u32) -> Option<Put>
        ensures { result ≡ slice_get self.now.puts.items place }
    {
        self.puts.get(place as usize).copied()
    }

    /// The gateways of the LAN at a place, but the one at another place, where that is named.
    pub fn gateways(&self, lan: u32, one: Option<u32>) -> Result<Vec<u32>, NoMemory>
        ensures { IfOk result (λ places. places.items
            ≡ filter (is_other one) (slice_index_or self.now.lans.items lan [])) }
    {
        match self.lans.get(lan as usize) {
            None => Ok(Vec::new(self.alloc)),
            Some(gateways) => gateways.but(self.alloc, one),
        }
    }

    /// The place of the LAN of the node at a place, where that is a gateway.
    pub fn lan_of(&self, node: u32) -> Option<usize>
        ensures { result ≡ lan_among node 0 self.now.lans.items }
    {
        for lan in 0..self.lans.len() {
            if self.lans[lan].has(node) {
                return Some(lan);
            }
        }
        None
    }
}
