//! The line of what came of a ping, or of a probe of a traceroute.

ghost use Rattle.std.specs.Prelude.{◌≡◌, ◌++◌, OnOk, OnErr, flat_map};
ghost use Rattle.mesh_base.specs.declared.event.Event.TheVariants.{Pinged, Traced};
ghost use Rattle.mesh_model.specs.Text.Events.{event_line, ping_text, trace_text};
ghost use Rattle.batctl_text.specs.Inner.Parts.{part_text};

use crate::part::Part::{self, Number, Text};
use crate::part::{NOTHING, name_part};
use crate::whole_line::put_line;
use mesh_base::{Mac, Names, NoMemory, PingResult, TraceResult};

// What came of a ping.
fn ping_parts(names: &Names, came: PingResult) -> [Part<'_>; 3]
    ensures { flat_map part_text result ≡ ping_text names.now came }
{
    match came {
        PingResult::NoRoute => [Text(b" noroute"), NOTHING, NOTHING],
        PingResult::Reply { ttl, rtt } => [
            Text(b" reply"),
            Number(b" ttl=", u64::from(ttl)),
            Number(b" rtt=", rtt),
        ],
        PingResult::Unreachable { from } => {
            [Text(b" unreachable from="), name_part(names, from), NOTHING]
        }
        PingResult::Exceeded { from } => {
            [Text(b" exceeded from="), name_part(names, from), NOTHING]
        }
    }
}

// What came of a probe of a traceroute: the hop, the node that answered it, and what it said.
fn trace_parts(names: &Names, came: TraceResult) -> [Part<'_>; 5]
    ensures { flat_map part_text result ≡ trace_text names.now came }
{
    match came {
        TraceResult::NoRoute => [Text(b" noroute"), NOTHING, NOTHING, NOTHING, NOTHING],
        TraceResult::Passed { hop, from, rtt } => [
            Number(b" hop=", u64::from(hop)),
            Text(b" "),
            name_part(names, from),
            Number(b" rtt=", rtt),
            NOTHING,
        ],
        TraceResult::Ended { hop, from, rtt } => [
            Number(b" hop=", u64::from(hop)),
            Text(b" "),
            name_part(names, from),
            Number(b" rtt=", rtt),
            Text(b" end"),
        ],
        TraceResult::Unreachable { hop, from } => [
            Number(b" hop=", u64::from(hop)),
            Text(b" "),
            name_part(names, from),
            Text(b" unreachable"),
            NOTHING,
        ],
    }
}

/// Appends the line of what came of a node's ping under a number.
#[tactic(auto, unfolding(mesh_model::specs::Text::Events::event_line))]
pub fn ping_line(
    out: &mut Vec<u8>,
    names: &Names,
    node: Mac,
    target: Mac,
    seq: u16,
    came: PingResult,
) -> Result<(), NoMemory>
    ensures ok { OnOk result (out.new.items ≡ out.old.items
        ++ event_line names.now (Pinged node target seq came)) }
    ensures err { OnErr result (out.new.items ≡ out.old.items) }
{
    let [word, first, second] = ping_parts(names, came);
    put_line(
        out,
        &[
            Text(b"ping "),
            name_part(names, node),
            Text(b" "),
            name_part(names, target),
            Number(b" seq=", u64::from(seq)),
            word,
            first,
            second,
        ],
    )
}

/// Appends the line of what came of a probe of a node's traceroute.
#[tactic(auto, unfolding(mesh_model::specs::Text::Events::event_line))]
pub fn trace_line(
    out: &mut Vec<u8>,
    names: &Names,
    node: Mac,
    target: Mac,
    came: TraceResult,
) -> Result<(), NoMemory>
    ensures ok { OnOk result (out.new.items ≡ out.old.items
        ++ event_line names.now (Traced node target came)) }
    ensures err { OnErr result (out.new.items ≡ out.old.items) }
{
    let [hop, space, from, time, word] = trace_parts(names, came);
    put_line(
        out,
        &[
            Text(b"trace "),
            name_part(names, node),
            Text(b" "),
            name_part(names, target),
            hop,
            space,
            from,
            time,
            word,
        ],
    )
}
