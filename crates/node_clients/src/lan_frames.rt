//! The row of frames on the LAN of a gateway.

ghost use Rattle.std.specs.Prelude.{◌≡◌, List, OnOk};
ghost use Rattle.mesh_base.specs.declared.address.Mac.{Mac};
ghost use Rattle.mesh_codec.specs.Payloads.{seen_frame};
ghost use Rattle.mesh_model.specs.Acts.Choosing.{on_from_lan, whole_acts};
ghost use Rattle.mesh_model.specs.Acts.NodeLimits.{client_limit};
ghost use Rattle.mesh_model.specs.Acts.Rows.{Own, own_by};
ghost use Rattle.mesh_model.specs.Clients.Lans as lans;
ghost use Rattle.mesh_model.specs.Clients.Log.{LanFrame, Log};
ghost use Rattle.mesh_model.specs.Clients.Mentions.{Mention, Sighted, passed_mentions, sighted_after};
ghost use Rattle.mesh_model.specs.Knowledge.Addressee.{addressee};
ghost use Rattle.mesh_model.specs.Knowledge.Known.{Knowledge};
ghost use Rattle.mesh_model.specs.Knowledge.Steps.{after_bridged, knowledge, leads_to_gateway, next_knowledge, stays_on_lan};
ghost use Rattle.mesh_model.specs.Packets.LanFrames.{Carries};
ghost use Rattle.node_ground.specs.KnowledgeStands.{KnowledgeStands};
ghost use Rattle.node_ground.specs.OwnStands.{HasClients, OwnStands, with_input};
ghost use Rattle.node_ground.specs.Puts.{Leaves, Puts};
ghost use Rattle.node_lans.specs.BridgeStands.{BridgeStands};
ghost use Rattle.node_clients.specs.FrameRows.{Before, HasMentioned, key_to};
ghost use Rattle.node_clients.specs.LanRows.{message_acts, message_knowledge, message_limit, passed_of};

use crate::client_frames::client_frame;
use crate::keys::key_to;
use crate::seeing::sight_client;
use mesh_algo::Algo;
use mesh_base::{Key, Millis};
use mesh_codec::{ClientFrame, LanMessage, read_lan};
use node_ground::deliveries::is_present;
use node_ground::{NodeErr, NodeKnowledge, Place, Port};
use node_lans::Bridge;
use node_lans::bridging::{claim_source, key_from};
use tt_local::Locals;

// Whether what is for a client goes to another gateway of the LAN.
fn leads_to_gateway<A: Algo>(
    kept: &NodeKnowledge<A>,
    bridge: &Bridge,
    now: Millis,
    key: Key,
) -> bool
    ensures { (me : Mac) (known : Knowledge) (gateway : lans.Bridge) →
        KnowledgeStands A.stands kept.now me known → BridgeStands bridge.now me gateway →
        result ≡ leads_to_gateway gateway.lan (addressee (A.queries me) known now key) }
{
    match kept.addressee(now, key) {
        Some(way) => bridge.is_beside(way.orig),
        None => false,
    }
}

// Whether a frame for a client stays on the LAN that it came from.
fn stays_on_lan<A: Algo>(
    kept: &NodeKnowledge<A>,
    locals: &Locals,
    bridge: &Bridge,
    now: Millis,
    key: Key,
) -> bool
    ensures { (me : Mac) (known : Knowledge) (own : Own) →
        KnowledgeStands A.stands kept.now me known → OwnStands locals.now own now →
        BridgeStands bridge.now me own.bridge →
        result ≡ stays_on_lan (A.queries me) own.mentions own.bridge.lan now key known }
{
    is_present(locals, now, key) || leads_to_gateway(kept, bridge, now, key)
}

// A client frame that a gateway passes of its LAN, behind its sighting: it goes on, unless it stays
// there.
fn pass_on<A: Algo, P: Port>(
    kept: &mut NodeKnowledge<A>,
    port: &mut P,
    locals: &Locals,
    bridge: &Bridge,
    at: Place,
    frame: &ClientFrame<'_>,
) -> Result<(), NodeErr>
    requires { (known : Knowledge) × KnowledgeStands A.stands kept.old at.me known }
    ensures puts { (log : Log) (known : Knowledge) (after : List Mention) →
        KnowledgeStands A.stands kept.old at.me known →
        OwnStands locals.now (record (own_by at.me log) { mentions = after }) at.now →
        BridgeStands bridge.now at.me (lans.bridge log) →
        Puts P.takes P.same P.over port.old
        (on_from_lan (A.queries at.me) at.me log at.now known after (seen_frame frame.now))
        result port.new }
    ensures noted { (log : Log) (known : Knowledge) (after : List Mention) →
        KnowledgeStands A.stands kept.old at.me known →
        OwnStands locals.now (record (own_by at.me log) { mentions = after }) at.now →
        BridgeStands bridge.now at.me (lans.bridge log) →
        let q = A.queries at.me in
        let key = key_to (seen_frame frame.now) in
        let stays = stays_on_lan q after (lans.bridge log).lan at.now key known in
        OnOk result (KnowledgeStands A.stands kept.new at.me
        (after_bridged q at.now stays key known)) }
{
    if stays_on_lan(kept, locals, bridge, at.now, key_to(frame)) {
        return Ok(());
    }
    client_frame(kept, port, locals, at, frame)?;
    Ok(())
}

// A client frame on the LAN of a gateway: a claim by the verdict, and then its sighting and the
// frame, where it is passed.
fn carried<A: Algo, P: Port>(
    kept: &mut NodeKnowledge<A>,
    port: &mut P,
    locals: &mut Locals,
    bridge: &Bridge,
    at: Place,
    flags: u8,
    frame: &ClientFrame<'_>,
) -> Result<(), NodeErr>
    requires { (log : Log) × Before A.stands A.queries kept.old locals.old at.me log at.now }
    ensures puts { (log : Log) →
        Before A.stands A.queries kept.old locals.old at.me log at.now →
        BridgeStands bridge.now at.me (lans.bridge log) → Sighted flags ≡ sighted_after log →
        let message = Carries (seen_frame frame.now) in
        Leaves P.takes P.same P.over (message_limit at.me log at.now message) port.old
        (message_acts (A.queries at.me) at.me log at.now message) result port.new }
    ensures noted { (log : Log) →
        Before A.stands A.queries kept.old locals.old at.me log at.now →
        BridgeStands bridge.now at.me (lans.bridge log) → Sighted flags ≡ sighted_after log →
        let message = Carries (seen_frame frame.now) in
        OnOk result (KnowledgeStands A.stands kept.new at.me
        (message_knowledge (A.queries at.me) at.me log at.now message)) }
    ensures mentioned { (log : Log) →
        Before A.stands A.queries kept.old locals.old at.me log at.now →
        BridgeStands bridge.now at.me (lans.bridge log) → Sighted flags ≡ sighted_after log →
        let message = Carries (seen_frame frame.now) in
        OnOk result (HasMentioned locals.new at.me log
        (passed_mentions (sighted_after log) at.now (passed_of at.me log at.now message))) }
{
    let key = key_from(frame);
    let verdict = bridge.claims.from_lan(at.now, key);
    claim_source(kept.alloc, port, bridge, at, frame, verdict)?;
    if !verdict.pass {
        return Ok(());
    }
    sight_client(kept, port, locals, at, flags, key)?;
    pass_on(kept, port, locals, bridge, at, frame)?;
    Ok(())
}

/// A frame on the LAN of this node, with the flags of a sighting.
pub fn lan_frame<A: Algo, P: Port>(
    kept: &mut NodeKnowledge<A>,
    port: &mut P,
    locals: &mut Locals,
    bridge: &mut Bridge,
    at: Place,
    flags: u8,
    bytes: &[u8],
) -> Result<(), NodeErr>
    requires { (log : Log) × Before A.stands A.queries kept.old locals.old at.me log at.now }
    ensures puts { (log : Log) →
        Before A.stands A.queries kept.old locals.old at.me log at.now →
        BridgeStands bridge.old at.me (lans.bridge log) → Sighted flags ≡ sighted_after log →
        Leaves P.takes P.same P.over (client_limit at.me log at.now (LanFrame bytes.now)) port.old
        (whole_acts (A.queries at.me) at.me log at.now (LanFrame bytes.now)) result port.new }
    ensures noted { (log : Log) →
        Before A.stands A.queries kept.old locals.old at.me log at.now →
        BridgeStands bridge.old at.me (lans.bridge log) → Sighted flags ≡ sighted_after log →
        let before = knowledge (A.queries at.me) at.me log in
        OnOk result (KnowledgeStands A.stands kept.new at.me
        (next_knowledge (A.queries at.me) at.me log before at.now (LanFrame bytes.now))) }
    ensures mentioned { (log : Log) →
        Before A.stands A.queries kept.old locals.old at.me log at.now →
        BridgeStands bridge.old at.me (lans.bridge log) → Sighted flags ≡ sighted_after log →
        OnOk result (HasClients locals.new at.me
        (with_input (A.queries at.me) at.me log at.now (LanFrame bytes.now))) }
    ensures bridged { (log : Log) → BridgeStands bridge.old at.me (lans.bridge log) →
        OnOk result (BridgeStands bridge.new at.me
        (lans.next_bridge (lans.bridge log) at.now (LanFrame bytes.now))) }
{
    match read_lan(bytes) {
        LanMessage::Claims { claim, sender, key } => {
            bridge.claims.claim_frame(at.now, sender, key, claim)?;
        }
        LanMessage::Carries(frame) => {
            carried(kept, port, locals, bridge, at, flags, &frame)?;
        }
        LanMessage::Nothing => {}
    }
    Ok(())
}
