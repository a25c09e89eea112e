//! How packets are put.

ghost use Rattle.std.specs.Prelude.{◌≡◌, ◌≤◌, ◌+◌, ◌*◌, ◌∷◌, [], ℕ, List, length, IfOk, IfSome, IsTrue};
ghost use Rattle.mesh_model.specs.declared.act.Act.TheVariants.{Link};
ghost use Rattle.mesh_model.specs.Acts.OwnContainers.{own_containers};
ghost use Rattle.mesh_model.specs.Acts.Packing.{sent_over, table_told};
ghost use Rattle.mesh_model.specs.Acts.Rows.{message_acts};
ghost use Rattle.mesh_model.specs.Packets.Containers.{containers_spelling};
ghost use Rattle.mesh_model.specs.Packets.Layout.{spelling};
ghost use Rattle.mesh_model.specs.Packets.Numbers.{ogm_diff_flag};
ghost use Rattle.mesh_model.specs.Routes.Queries.{is_elp, is_ogm};
ghost use Rattle.node_ground.specs.Puts.{Puts};
ghost use Rattle.node_ground.specs.Sending.{FitsOgm, IsWritable};
ghost use Rattle.node_ground.specs.SettingsSeen.{settings_seen};
ghost use Rattle.tt_global.specs.Kept.{stamp_in};

use crate::failure::NodeErr;
use crate::packing::{own_size, put_own};
use crate::port::Port;
use crate::settings::Settings;
use mesh_base::{Bytes, Mac, NoMemory, Reason};
use mesh_codec::{CodecErr, Head, encode, encode_head};
use mesh_model::Act;
use tt_table::Announcement;

// The bytes of a packet, in a vector that has none.
fn packet_bytes(mut bytes: Vec<u8>, head: &Head, tail: &[u8]) -> Result<Bytes, NoMemory>
    requires writable { IsWritable head.now tail.now }
    requires blank { bytes.items ≡ [] }
    ensures { IfOk result (λ packet. packet ≡ spelling head.now tail.now) }
{
    match encode(&mut bytes, head, tail) {
        Ok(()) => Ok(Bytes::from_vec(bytes)),
        Err(CodecErr::Memory) => Err(NoMemory),
        Err(_) => unreachable!(),
    }
}

/// Puts a packet to a neighbour, or on all links.
pub fn send<P: Port>(
    port: &mut P,
    to: Option<Mac>,
    reason: Option<Reason>,
    head: &Head,
    tail: &[u8],
) -> Result<(), NodeErr>
    requires { IsWritable head.now tail.now }
    ensures { Puts P.takes P.same P.over port.old
        (Link to reason (spelling head.now tail.now) ∷ []) result port.new }
{
    let bytes = packet_bytes(port.blank(), head, tail)?;
    port.put(Act::Link { to, reason, bytes })?;
    Ok(())
}

/// Puts a packet to the neighbour on the way to a node, where there is a way.
pub fn send_over<P: Port>(
    port: &mut P,
    next: Option<Mac>,
    head: &Head,
    tail: &[u8],
) -> Result<(), NodeErr>
    requires { IsWritable head.now tail.now }
    ensures { Puts P.takes P.same P.over port.old (sent_over next head.now tail.now)
        result port.new }
{
    let Some(next) = next else {
        return Ok(());
    };
    send(port, Some(next), None, head, tail)?;
    Ok(())
}

/// Puts an originator message on all links, where there is a head for it.
#[tactic(auto, unfolding(mesh_model::specs::Acts::Rows::message_acts))]
#[inline(always)]
pub fn send_message<P: Port>(port: &mut P, head: &Option<Head>, tail: &[u8]) -> Result<(), NodeErr>
    requires ogm { IfSome head.now (λ head. IsTrue (is_ogm head)) }
    requires fits { length tail.now ≤ 65535 }
    ensures { Puts P.takes P.same P.over port.old (message_acts head.now tail.now) result port.new }
{
    let Some(head) = head else {
        return Ok(());
    };
    send(port, None, None, head, tail)?;
    Ok(())
}

// The bytes of the own originator message, in a vector that has none.
fn own_packet(
    mut bytes: Vec<u8>,
    head: &Head,
    settings: Settings,
    announced: &Announcement,
) -> Result<Bytes, NoMemory>
    requires writable { (tail : List ℕ) → length tail ≤ 65535 → IsWritable head.now tail }
    requires few { FitsOgm announced.now }
    requires blank { bytes.items ≡ [] }
    ensures { IfOk result (λ packet. packet ≡ spelling head.now (containers_spelling
        (own_containers (settings_seen settings)
        (table_told ogm_diff_flag (stamp_in announced.now) announced.now.changes)))) }
{
    match encode_head(&mut bytes, head, own_size(settings, announced)) {
        Ok(()) => {}
        Err(CodecErr::Memory) => return Err(NoMemory),
        Err(_) => unreachable!(),
    }
    put_own(&mut bytes, settings, announced)?;
    Ok(Bytes::from_vec(bytes))
}

/// Puts the own originator message on all links, where there is a head for it, by the node's
/// settings, with what it announces.
#[tactic(auto, unfolding(mesh_model::specs::Acts::Rows::message_acts))]
pub fn send_own<P: Port>(
    port: &mut P,
    head: &Option<Head>,
    settings: Settings,
    announced: &Announcement,
) -> Result<(), NodeErr>
    requires ogm { IfSome head.now (λ head. IsTrue (is_ogm head)) }
    requires few { FitsOgm announced.now }
    ensures { Puts P.takes P.same P.over port.old (message_acts head.now (containers_spelling
        (own_containers (settings_seen settings)
        (table_told ogm_diff_flag (stamp_in announced.now) announced.now.changes))))
        result port.new }
{
    let Some(head) = head else {
        return Ok(());
    };
    let bytes = own_packet(port.blank(), head, settings, announced)?;
    port.put(Act::Link {
        to: None,
        reason: None,
        bytes,
    })?;
    Ok(())
}

/// Puts a message of the echo location protocol on all links, where there is a head for it.
#[tactic(auto, unfolding(mesh_model::specs::Acts::Rows::message_acts))]
pub fn send_elp<P: Port>(port: &mut P, head: Option<Head>) -> Result<(), NodeErr>
    requires { IfSome head (λ head. IsTrue (is_elp head)) }
    ensures { Puts P.takes P.same P.over port.old (message_acts head []) result port.new }
{
    let Some(head) = head else {
        return Ok(());
    };
    send(port, None, None, &head, &[])?;
    Ok(())
}
