//! What a gateway puts on its LAN for what comes from the mesh: claims and unclaims, client frames,
//! and how many claims it holds.

ghost use Rattle.std.specs.Prelude.{◌≡◌, ◌∷◌, []};
ghost use Rattle.mesh_codec.specs.Payloads.{seen_frame};
ghost use Rattle.mesh_model.specs.Acts.BridgeRows.{bridged_acts, claim_acts, holds, out_acts, round_acts, unclaim_acts, verdict_acts};
ghost use Rattle.mesh_model.specs.Acts.FrameRows.{handed_out_if};
ghost use Rattle.mesh_model.specs.Clients.Lans as lans;
ghost use Rattle.mesh_model.specs.Acts.Choosing.{claiming_acts};
ghost use Rattle.mesh_model.specs.Bridges.Verdicts.{verdict_from_lan};
ghost use Rattle.mesh_model.specs.Clients.Log.{Log};
ghost use Rattle.mesh_model.specs.Clients.Mentions.{key_of};
ghost use Rattle.mesh_model.specs.Packets.Payload.{client_frame_of};
ghost use Rattle.mesh_model.specs.declared.act.Act.TheVariants.{Lan};
ghost use Rattle.node_ground.specs.KnowledgeStands.{place};
ghost use Rattle.node_ground.specs.Puts.{Puts};
ghost use Rattle.node_lans.specs.BridgeStands.{BridgeStands, lan_of};

use crate::bridge::{Bridge, LanOf};
use mesh_base::{Bytes, Key, Mac};
use mesh_bla::{Spread, Verdict};
use mesh_codec::{ClientFrame, announce_bytes, claim_bytes, read_client_frame};
use mesh_model::Act;
use node_ground::deliveries::{hand_out, payload};
use node_ground::{NodeErr, Place, Port};
use std::alloc::Global;

/// How many ticks pass between two announcements on a LAN.
const TICKS_OF_ROUND: u64 = 20;

// A frame on the LAN.
fn put_lan<P: Port>(alloc: Global, port: &mut P, bytes: &[u8]) -> Result<(), NodeErr>
    ensures { Puts P.takes P.same P.over port.old (Lan bytes.now ∷ []) result port.new }
{
    let bytes = Bytes::from_slice(alloc, bytes)?;
    port.put(Act::Lan { bytes })?;
    Ok(())
}

/// A claim of a client, where one is made.
pub fn claim<P: Port>(
    alloc: Global,
    port: &mut P,
    at: Place,
    lan: &LanOf,
    key: Key,
    claim: bool,
) -> Result<(), NodeErr>
    ensures { Puts P.takes P.same P.over port.old
        (claim_acts (place at) (lan_of lan.now) key claim) result port.new }
{
    if !claim {
        return Ok(());
    }
    put_lan(alloc, port, &claim_bytes(true, lan.number, at.me, key))?;
    Ok(())
}

/// The claim of a client frame's source on the LAN that it came from, where this verdict says so.
pub fn claim_source<P: Port>(
    alloc: Global,
    port: &mut P,
    bridge: &Bridge,
    at: Place,
    frame: &ClientFrame<'_>,
    verdict: Verdict,
) -> Result<(), NodeErr>
    ensures { (log : Log) → BridgeStands bridge.now at.me (lans.bridge log) →
        verdict ≡ verdict_from_lan at.me (lans.bridge log).claims at.now
        (key_of frame.now.src frame.now.vid) →
        Puts P.takes P.same P.over port.old
        (claiming_acts at.me log at.now (seen_frame frame.now) (lans.bridge log).lan)
        result port.new }
{
    let Some(lan) = &bridge.lan else {
        return Ok(());
    };
    claim(alloc, port, at, lan, key_from(frame), verdict.claim)?;
    Ok(())
}

// A client frame on the LAN, where it is passed.
fn put_frame<P: Port>(
    alloc: Global,
    port: &mut P,
    frame: &ClientFrame<'_>,
    pass: bool,
) -> Result<(), NodeErr>
    ensures { Puts P.takes P.same P.over port.old
        (bridged_acts (seen_frame frame.now) pass) result port.new }
{
    if !pass {
        return Ok(());
    }
    let payload = payload(alloc, frame)?;
    put_lan(alloc, port, payload.as_slice())?;
    Ok(())
}

// A client frame from the mesh at a gateway, by its verdict: a claim, then the frame.
fn put_by_verdict<P: Port>(
    alloc: Global,
    port: &mut P,
    at: Place,
    lan: &LanOf,
    frame: &ClientFrame<'_>,
    verdict: Verdict,
) -> Result<(), NodeErr>
    ensures { Puts P.takes P.same P.over port.old
        (verdict_acts (place at) (lan_of lan.now) (seen_frame frame.now) verdict)
        result port.new }
{
    claim(alloc, port, at, lan, key_from(frame), verdict.claim)?;
    put_frame(alloc, port, frame, verdict.pass)?;
    Ok(())
}

/// The client that a client frame comes from.
pub fn key_from(frame: &ClientFrame<'_>) -> Key
    ensures { result ≡ key_of frame.now.src frame.now.vid }
{
    Key {
        mac: frame.src,
        vid: frame.vid,
    }
}

/// A client frame that came from the mesh for the clients of this node.
pub fn out<P: Port>(
    alloc: Global,
    port: &mut P,
    bridge: &Bridge,
    at: Place,
    spread: Spread,
    frame: &ClientFrame<'_>,
) -> Result<(), NodeErr>
    ensures { (gateway : lans.Bridge) → BridgeStands bridge.now at.me gateway →
        Puts P.takes P.same P.over port.old
        (out_acts gateway (place at) spread (seen_frame frame.now)) result port.new }
{
    let Some(lan) = &bridge.lan else {
        hand_out(alloc, port, at, frame)?;
        return Ok(());
    };
    let verdict = bridge.claims.from_mesh(at.now, key_from(frame), spread);
    put_by_verdict(alloc, port, at, lan, frame, verdict)?;
    Ok(())
}

/// What a broadcast of an originator carries reaches the clients of this node, where it is a client
/// frame.
pub fn out_carried<P: Port>(
    alloc: Global,
    port: &mut P,
    bridge: &Bridge,
    at: Place,
    orig: Mac,
    tail: &[u8],
) -> Result<(), NodeErr>
    ensures { (gateway : lans.Bridge) → BridgeStands bridge.now at.me gateway →
        Puts P.takes P.same P.over port.old
        (handed_out_if gateway (place at) orig (client_frame_of tail.now)) result port.new }
{
    let Some(frame) = read_client_frame(tail) else {
        return Ok(());
    };
    let spread = bridge.spread_of_broadcast(orig, &frame);
    out(alloc, port, bridge, at, spread, &frame)?;
    Ok(())
}

// Whether this node holds a client.
fn holds(bridge: &Bridge, at: Place, key: Key) -> bool
    ensures { (gateway : lans.Bridge) → BridgeStands bridge.now at.me gateway →
        result ≡ holds (place at) gateway key }
{
    bridge.claims.holder(at.now, key) == Some(at.me)
}

/// The end of the claim of a client that roamed away, if one did, where this node is a gateway that
/// holds it.
pub fn unclaim<P: Port>(
    alloc: Global,
    port: &mut P,
    bridge: &Bridge,
    at: Place,
    roamed: Option<Key>,
) -> Result<(), NodeErr>
    ensures { (gateway : lans.Bridge) → BridgeStands bridge.now at.me gateway →
        Puts P.takes P.same P.over port.old
        (unclaim_acts (place at) gateway roamed) result port.new }
{
    let Some(key) = roamed else {
        return Ok(());
    };
    let Some(lan) = &bridge.lan else {
        return Ok(());
    };
    if !holds(bridge, at, key) {
        return Ok(());
    }
    put_lan(alloc, port, &claim_bytes(false, lan.number, at.me, key))?;
    Ok(())
}

/// At the tick of an index that begins a round, a gateway tells its LAN how many claims it holds.
pub fn round<P: Port>(
    alloc: Global,
    port: &mut P,
    bridge: &Bridge,
    at: Place,
    index: u64,
) -> Result<(), NodeErr>
    ensures { (gateway : lans.Bridge) → BridgeStands bridge.now at.me gateway →
        Puts P.takes P.same P.over port.old
        (round_acts (place at) gateway index) result port.new }
{
    if index % TICKS_OF_ROUND != 0 {
        return Ok(());
    }
    let Some(lan) = &bridge.lan else {
        return Ok(());
    };
    let count = bridge.claims.announce(at.now);
    put_lan(alloc, port, &announce_bytes(lan.number, at.me, count))?;
    Ok(())
}
