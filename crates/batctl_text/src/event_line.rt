//! The line of an event.

ghost use Rattle.std.specs.Prelude.{◌≡◌, ◌++◌, OnOk, OnErr};
ghost use Rattle.batctl_text.specs.Inner.Parts.{part_text};
ghost use Rattle.mesh_model.specs.Text.Events.{by_text, client_frame_line, event_line, kind_word, lan_kind_word, loss_word};

use crate::part::Part::{self, Address, Hex, Number, Text, Vlan};
use crate::part::{lan_part, name_part};
use crate::probe_line::{ping_line, trace_line};
use crate::question_line::{arp_line, fact_line};
use crate::route_lines::route_line;
use crate::whole_line::put_line;
use mesh_base::{Event, LossReason, Mac, Millis, Names, NoMemory, Reason, Vid};
use mesh_codec::numbers::{BCAST, ELP, FRAG, ICMP, IV_OGM, OGM2, UNICAST, UNICAST4, UTVLV};
use mesh_codec::{CLAIM_TYPE, UNCLAIM_TYPE, gateway_type};
use mesh_model::RouteLine;

// The word of a frame's kind, or `-` where its first byte is of none.
fn kind_word(bytes: &[u8]) -> &'static [u8]
    ensures { result.now ≡ kind_word bytes.now }
{
    let Some(&kind) = bytes.first() else {
        return b"-";
    };
    match kind {
        IV_OGM => b"iv_ogm",
        BCAST => b"bcast",
        ELP => b"elp",
        OGM2 => b"ogm2",
        UNICAST => b"unicast",
        FRAG => b"frag",
        UNICAST4 => b"unicast4",
        ICMP => b"icmp",
        UTVLV => b"utvlv",
        _ => b"-",
    }
}

// The word of a LAN frame's kind.
fn lan_kind_word(bytes: &[u8]) -> &'static [u8]
    ensures { result.now ≡ lan_kind_word bytes.now }
{
    match gateway_type(bytes) {
        None => b"client",
        Some(CLAIM_TYPE) => b"claim",
        Some(UNCLAIM_TYPE) => b"unclaim",
        Some(_) => b"announce",
    }
}

// A reason as it stands before the bytes, or nothing.
fn by_text(reason: Option<Reason>) -> &'static [u8]
    ensures { result.now ≡ by_text reason }
{
    match reason {
        None => b"",
        Some(Reason::Roam) => b" by=roam",
        Some(Reason::Table) => b" by=table",
        Some(Reason::Old) => b" by=old",
        Some(Reason::Gw) => b" by=gw",
        Some(Reason::Mc) => b" by=mc",
        Some(Reason::Alfred) => b" by=alfred",
        Some(Reason::Fwd) => b" by=fwd",
    }
}

// The word of a loss.
fn loss_word(reason: LossReason) -> &'static [u8]
    ensures { result.now ≡ loss_word reason }
{
    match reason {
        LossReason::Unknown => b"unknown",
        LossReason::Ttl => b"ttl",
        LossReason::NoRoute => b"noroute",
    }
}

/// A client frame that reached clients of a node or a LAN, or was lost.
#[derive(Clone, Copy)]
struct ClientFrame<'a> {
    word: &'a [u8],
    moment: Millis,
    name: Part<'a>,
    vid: Vid,
    src: Mac,
    dst: Mac,
    last: &'a [u8],
}

// Appends the line of a client frame: a word, moment, the name of a node or a LAN, VLAN, source and
// destination, and what stands last.
#[tactic(auto, unfolding(mesh_model::specs::Text::Events::client_frame_line))]
fn client_frame_line(out: &mut Vec<u8>, frame: &ClientFrame<'_>) -> Result<(), NoMemory>
    ensures ok { OnOk result (out.new.items ≡ out.old.items
        ++ client_frame_line frame.now.word.now frame.now.moment (part_text frame.now.name)
        frame.now.vid frame.now.src frame.now.dst frame.now.last.now) }
    ensures err { OnErr result (out.new.items ≡ out.old.items) }
{
    put_line(
        out,
        &[
            Text(frame.word),
            Number(b" ", frame.moment),
            Text(b" "),
            frame.name,
            Text(b" "),
            Vlan(frame.vid),
            Address(b" ", frame.src),
            Address(b" ", frame.dst),
            Text(b" "),
            Text(frame.last),
        ],
    )
}

/// Appends the line of an event.
///
/// A node that has no name is printed by its address, a LAN without one by nothing. What a choice
/// of frames hides is the caller's matter: each event has its line here.
#[tactic(auto, unfolding(mesh_model::specs::Text::Events::event_line))]
pub fn line<'a>(out: &mut Vec<u8>, names: &'a Names, event: &'a Event) -> Result<(), NoMemory>
    ensures ok { OnOk result (out.new.items
        ≡ out.old.items ++ event_line names.now event.now) }
    ensures err { OnErr result (out.new.items ≡ out.old.items) }
{
    match event {
        Event::FrameSent {
            number,
            moment,
            from,
            to,
            reason,
            bytes,
        } => put_line(
            out,
            &[
                Number(b"f", u64::from(*number)),
                Number(b" ", *moment),
                Text(b" "),
                name_part(names, *from),
                Text(b">"),
                name_part(names, *to),
                Text(b" "),
                Text(kind_word(bytes.as_slice())),
                Text(by_text(*reason)),
                Text(b" "),
                Hex(bytes.as_slice()),
            ],
        ),
        Event::Received {
            moment,
            node,
            vid,
            src,
            dst,
            text,
        } => {
            let frame = ClientFrame {
                word: b"recv",
                moment: *moment,
                name: name_part(names, *node),
                vid: *vid,
                src: *src,
                dst: *dst,
                last: text.as_slice(),
            };
            client_frame_line(out, &frame)
        }
        Event::LanSent {
            number,
            moment,
            lan,
            bytes,
        } => put_line(
            out,
            &[
                Number(b"l", u64::from(*number)),
                Number(b" ", *moment),
                Text(b" "),
                lan_part(names, *lan),
                Text(b" "),
                Text(lan_kind_word(bytes.as_slice())),
                Text(b" "),
                Hex(bytes.as_slice()),
            ],
        ),
        Event::Bridged {
            moment,
            lan,
            vid,
            src,
            dst,
            text,
        } => {
            let frame = ClientFrame {
                word: b"recv",
                moment: *moment,
                name: lan_part(names, *lan),
                vid: *vid,
                src: *src,
                dst: *dst,
                last: text.as_slice(),
            };
            client_frame_line(out, &frame)
        }
        Event::Lost {
            moment,
            node,
            vid,
            src,
            dst,
            reason,
        } => {
            let frame = ClientFrame {
                word: b"lost",
                moment: *moment,
                name: name_part(names, *node),
                vid: *vid,
                src: *src,
                dst: *dst,
                last: loss_word(*reason),
            };
            client_frame_line(out, &frame)
        }
        Event::Alias {
            node,
            commit,
            earlier,
        } => put_line(
            out,
            &[
                Text(b"alias "),
                name_part(names, *node),
                Number(b" ", *commit),
                Number(b" ", *earlier),
            ],
        ),
        Event::Pinged {
            node,
            target,
            seq,
            result,
        } => ping_line(out, names, *node, *target, *seq, *result),
        Event::Traced {
            node,
            target,
            result,
        } => trace_line(out, names, *node, *target, *result),
        Event::Arp { node, ip, result } => arp_line(out, names, *node, *ip, *result),
        Event::Alfred {
            node,
            type_no,
            result,
        } => fact_line(out, names, *node, *type_no, result),
        Event::Route {
            at,
            node,
            orig,
            next,
        } => {
            let line = RouteLine {
                moment: *at,
                node: *node,
                orig: *orig,
                next: *next,
            };
            route_line(out, line)
        }
    }
}
