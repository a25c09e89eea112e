//! The row of sightings: a client that wasn't present just before is advertised where it was.

ghost use Rattle.std.specs.Prelude.{◌≡◌, ◌≤◌, ◌↔◌, ◌∷◌, [], length, option_map, IfOk, OnOk, IsNone, IsTrue};
ghost use Rattle.mesh_base.specs.declared.address.Mac.{Mac};
ghost use Rattle.mesh_model.specs.Acts.FrameRows.{advert_acts};
ghost use Rattle.mesh_model.specs.Acts.Packing.{roaming_container};
ghost use Rattle.mesh_model.specs.Clients.Log.{Log};
ghost use Rattle.mesh_model.specs.Clients.Mentions.{mentions};
ghost use Rattle.mesh_model.specs.Clients.Present.{present_row};
ghost use Rattle.mesh_model.specs.Knowledge.Known.{Knowledge};
ghost use Rattle.mesh_model.specs.Knowledge.Steps.{advertised, after_sighting, sighting_calls};
ghost use Rattle.mesh_model.specs.Packets.Containers.{containers_spelling};
ghost use Rattle.node_ground.specs.KnowledgeStands.{KnowledgeStands};
ghost use Rattle.node_ground.specs.Puts.{Puts};
ghost use Rattle.node_clients.specs.Sightings.{advert_way, advised};
ghost use Rattle.node_ground.specs.Ways.{way};

use mesh_algo::Algo;
use mesh_base::{Key, Mac, Millis, NoMemory};
use mesh_codec::Head;
use mesh_tvlv::layout::{ROAMING, VERSION};
use mesh_tvlv::{key_bytes, write_container};
use node_ground::messages::send;
use node_ground::packing::FIRST_TTL;
use node_ground::{NodeErr, NodeKnowledge, Place, Port, Way};
use std::alloc::Global;
use tt_sync::AdviseErr;

// Where a sighted client is advertised, if anywhere: by what is known before the sighting.
fn advise<A: Algo>(
    kept: &mut NodeKnowledge<A>,
    now: Millis,
    key: Key,
    newly: bool,
) -> Result<Option<Way>, NoMemory>
    ensures way { (me : Mac) (known : Knowledge) → KnowledgeStands A.stands kept.old me known →
        IfOk result (λ to. option_map way to
        ≡ advert_way (A.queries me) known now key newly) }
    ensures noted { (me : Mac) (known : Knowledge) →
        KnowledgeStands A.stands kept.old me known →
        let to = advert_way (A.queries me) known now key newly in
        OnOk result (KnowledgeStands A.stands kept.new me
        (record known { marks = advised now key to known.marks })) }
{
    if !newly {
        return Ok(None);
    }
    let Some(to) = kept.addressee(now, key) else {
        return Ok(None);
    };
    match kept.sync.advise(now, key) {
        Ok(()) => Ok(Some(to)),
        Err(AdviseErr::TooMany { .. }) => Ok(None),
        Err(AdviseErr::Memory) => Err(NoMemory),
    }
}

// The containers of an advertisement.
fn advert(alloc: Global, key: Key) -> Result<Vec<u8>, NoMemory>
    ensures bytes { IfOk result (λ bytes.
        bytes.items ≡ containers_spelling (roaming_container key ∷ [])) }
    ensures fits { IfOk result (λ bytes. length bytes.items ≤ 65535) }
{
    let mut bytes = Vec::new(alloc);
    write_container(&mut bytes, ROAMING, VERSION, &key_bytes(key))?;
    Ok(bytes)
}

// A client is advertised, where there is a way.
fn send_advert<P: Port>(
    alloc: Global,
    port: &mut P,
    me: Mac,
    key: Key,
    to: &Option<Way>,
) -> Result<(), NodeErr>
    ensures { Puts P.takes P.same P.over port.old
        (advert_acts me key (option_map way to.now)) result port.new }
{
    let Some(to) = to else {
        return Ok(());
    };
    let containers = advert(alloc, key)?;
    let head = Head::Utvlv {
        ttl: FIRST_TTL,
        dst: to.orig,
        src: me,
    };
    let next = Some(to.next);
    send(port, next, None, &head, containers.as_slice())?;
    Ok(())
}

/// A client is sighted, which is newly present by that or not: its mark ends, and it is advertised
/// where it was.
pub(crate) fn sighting<A: Algo, P: Port>(
    kept: &mut NodeKnowledge<A>,
    port: &mut P,
    at: Place,
    key: Key,
    newly: bool,
) -> Result<(), NodeErr>
    ensures puts { (known : Knowledge) (log : Log) → KnowledgeStands A.stands kept.old at.me known →
        (IsTrue newly ↔ IsNone (present_row (mentions at.me log) at.now key)) →
        Puts P.takes P.same P.over port.old (advert_acts at.me key
        (advertised (A.queries at.me) at.me log known at.now key)) result port.new }
    ensures noted { (known : Knowledge) (log : Log) →
        KnowledgeStands A.stands kept.old at.me known →
        (IsTrue newly ↔ IsNone (present_row (mentions at.me log) at.now key)) →
        OnOk result (KnowledgeStands A.stands kept.new at.me
        (after_sighting (A.queries at.me) at.me log at.now key known)) }
{
    let to = advise(kept, at.now, key, newly)?;
    kept.sync.unmark(key);
    send_advert(kept.alloc, port, at.me, key, &to)?;
    Ok(())
}
