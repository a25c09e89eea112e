//! The rows of a node's own probes: a session of ping or traceroute begins, and answers come to it.

ghost use Rattle.std.specs.Prelude.{◌≡◌, OnOk};
ghost use Rattle.mesh_model.specs.Acts.ProbeRows.{answered_acts, answer_event, icmp_head, next_acts, ping_result, probe_acts, request_of, session_acts, session_uid, trace_result, unsent};
ghost use Rattle.mesh_model.specs.Knowledge.Known.{Knowledge};
ghost use Rattle.mesh_model.specs.Knowledge.Steps.{after_reply, after_start, following, unless_sent};
ghost use Rattle.mesh_model.specs.Probes.OpenProbes.{probes_by};
ghost use Rattle.node_probes.specs.Icmp.{icmp_of};
ghost use Rattle.node_ground.specs.KnowledgeStands.{KnowledgeStands, place};
ghost use Rattle.node_ground.specs.Puts.{Puts};

use crate::icmp_message::IcmpMessage;
use mesh_algo::Algo;
use mesh_base::{Event, Mac, Millis, PingResult, TraceResult};
use mesh_codec::Head;
use mesh_codec::numbers::{DESTINATION_UNREACHABLE, ECHO_REPLY, ECHO_REQUEST};
use mesh_icmp::{OpenProbe, Probe, Told};
use mesh_model::Act;
use node_ground::messages::send;
use node_ground::{NodeErr, NodeKnowledge, Place, Port};

/// The uid of a ping's messages.
const PING_UID: u8 = 1;

/// The uid of a traceroute's messages.
const TRACE_UID: u8 = 2;

// The uid of a session's messages.
fn session_uid(trace: bool) -> u8
    ensures { result ≡ session_uid trace }
{
    if trace { TRACE_UID } else { PING_UID }
}

// The head of a probe's echo request.
fn request_head(me: Mac, trace: bool, probe: Probe) -> Head
    ensures { result ≡ icmp_head (request_of me trace probe) }
{
    Head::Icmp {
        ttl: probe.ttl,
        msg: ECHO_REQUEST,
        dst: probe.target,
        orig: me,
        uid: session_uid(trace),
        seq: probe.seq,
    }
}

// The event of a probe that no neighbour leads on.
fn unsent(me: Mac, trace: bool, probe: Probe) -> Event
    ensures { result ≡ unsent me trace probe }
{
    if trace {
        Event::Traced {
            node: me,
            target: probe.target,
            result: TraceResult::NoRoute,
        }
    } else {
        Event::Pinged {
            node: me,
            target: probe.target,
            seq: probe.seq,
            result: PingResult::NoRoute,
        }
    }
}

// A probe goes to the neighbour on the way to its target, or is closed where there is none.
fn put_probe<A: Algo, P: Port>(
    kept: &mut NodeKnowledge<A>,
    port: &mut P,
    at: Place,
    trace: bool,
    probe: Probe,
) -> Result<(), NodeErr>
    ensures puts { (known : Knowledge) → KnowledgeStands A.stands kept.old at.me known →
        Puts P.takes P.same P.over port.old
        (probe_acts at.me trace probe ((A.queries at.me).route known.routes at.now probe.target))
        result port.new }
    ensures noted { (known : Knowledge) → KnowledgeStands A.stands kept.old at.me known →
        OnOk result (KnowledgeStands A.stands kept.new at.me (record known {
          probes =
              unless_sent ((A.queries at.me).route known.routes at.now probe.target) probe
              known.probes;
        })) }
{
    let Some(next) = kept.algo.route(at.now, probe.target) else {
        kept.sessions.close(probe.seq);
        port.put(Act::Print(unsent(at.me, trace, probe)))?;
        return Ok(());
    };
    let head = request_head(at.me, trace, probe);
    send(port, Some(next), None, &head, &[])?;
    Ok(())
}

/// A ping or, for `trace`, a traceroute begins.
#[tactic(auto, unfolding(mesh_model::specs::Acts::ProbeRows::session_acts))]
pub fn session<A: Algo, P: Port>(
    kept: &mut NodeKnowledge<A>,
    port: &mut P,
    at: Place,
    target: Mac,
    trace: bool,
) -> Result<(), NodeErr>
    ensures puts { (known : Knowledge) → KnowledgeStands A.stands kept.old at.me known →
        Puts P.takes P.same P.over port.old
        (session_acts (A.queries at.me) known (place at) target trace) result port.new }
    ensures noted { (known : Knowledge) → KnowledgeStands A.stands kept.old at.me known →
        OnOk result (KnowledgeStands A.stands kept.new at.me
        (after_start (A.queries at.me) at.now target trace known)) }
{
    let probe = kept.sessions.start(at.now, target, trace)?;
    put_probe(kept, port, at, trace, probe)?;
    Ok(())
}

// What an answer, so many milliseconds after it, makes of a ping.
fn ping_result(message: IcmpMessage, rtt: Millis) -> PingResult
    ensures { result ≡ ping_result (icmp_of message) rtt }
{
    let IcmpMessage {
        ttl,
        kind,
        orig,
        ..
    } = message;
    if kind == ECHO_REPLY {
        PingResult::Reply { ttl, rtt }
    } else if kind == DESTINATION_UNREACHABLE {
        PingResult::Unreachable { from: orig }
    } else {
        PingResult::Exceeded { from: orig }
    }
}

// What an answer, so many milliseconds after it, makes of a traceroute's probe of a hop.
fn trace_result(message: IcmpMessage, hop: u8, rtt: Millis) -> TraceResult
    ensures { result ≡ trace_result (icmp_of message) hop rtt }
{
    let IcmpMessage { kind, orig, .. } = message;
    if kind == ECHO_REPLY {
        TraceResult::Ended {
            hop,
            from: orig,
            rtt,
        }
    } else if kind == DESTINATION_UNREACHABLE {
        TraceResult::Unreachable { hop, from: orig }
    } else {
        TraceResult::Passed {
            hop,
            from: orig,
            rtt,
        }
    }
}

// The event of an answer to an open probe.
fn answer_event(at: Place, message: IcmpMessage, asked: OpenProbe) -> Event
    ensures { result ≡ answer_event (place at) (icmp_of message) asked }
{
    let Probe { target, seq, ttl } = asked.probe;
    let rtt = at.now.saturating_sub(asked.sent);
    if asked.trace {
        Event::Traced {
            node: at.me,
            target,
            result: trace_result(message, ttl, rtt),
        }
    } else {
        Event::Pinged {
            node: at.me,
            target,
            seq,
            result: ping_result(message, rtt),
        }
    }
}

// The probe that follows an answer is put, where one does.
fn follow<A: Algo, P: Port>(
    kept: &mut NodeKnowledge<A>,
    port: &mut P,
    at: Place,
    told: Told,
) -> Result<(), NodeErr>
    ensures puts { (known : Knowledge) → KnowledgeStands A.stands kept.old at.me known →
        Puts P.takes P.same P.over port.old
        (next_acts (A.queries at.me) known.routes (place at) told) result port.new }
    ensures noted { (known : Knowledge) → KnowledgeStands A.stands kept.old at.me known →
        OnOk result (KnowledgeStands A.stands kept.new at.me (record known {
          probes = following (A.queries at.me) known.routes at.now told known.probes;
        })) }
{
    match told {
        Told::Unknown | Told::Done { .. } => {}
        Told::Next { probe, .. } => put_probe(kept, port, at, true, probe)?,
    }
    Ok(())
}

/// An answer to the open probe of its number, where there is one, and what follows.
pub(crate) fn answer<A: Algo, P: Port>(
    kept: &mut NodeKnowledge<A>,
    port: &mut P,
    at: Place,
    message: IcmpMessage,
) -> Result<(), NodeErr>
    ensures puts { (known : Knowledge) → KnowledgeStands A.stands kept.old at.me known →
        Puts P.takes P.same P.over port.old
        (answered_acts (A.queries at.me) known (place at) (icmp_of message)
        ((probes_by known.probes).waiting message.seq)) result port.new }
    ensures noted { (known : Knowledge) → KnowledgeStands A.stands kept.old at.me known →
        OnOk result (KnowledgeStands A.stands kept.new at.me
        (after_reply (A.queries at.me) at.now message.kind message.seq known)) }
{
    let IcmpMessage {
        kind,
        orig,
        seq,
        ..
    } = message;
    let Some(asked) = kept.sessions.open_probe(seq) else {
        return Ok(());
    };
    let told = kept.sessions.answer(at.now, orig, seq, kind);
    port.put(Act::Print(answer_event(at, message, asked)))?;
    follow(kept, port, at, told)?;
    Ok(())
}
