//! The line of what ends the packets of a link frame.

ghost use Rattle.std.specs.Prelude.{◌≡◌, ◌++◌, OnOk, OnErr};
ghost use Rattle.std.specs.List.{concat};
ghost use Rattle.mesh_model.specs.Text.Decode.{bad_container_line, bad_packet_line, ending_lines, rest_line};

use crate::part::Part::{Number, Text};
use crate::whole_line::put_line;
use mesh_base::NoMemory;
use mesh_codec::{Ending, NoPacket, TvlvErr};

// Appends the line of bytes that begin no packet.
#[tactic(auto, unfolding(mesh_model::specs::Text::Decode::bad_packet_line))]
fn put_bad_packet(out: &mut Vec<u8>, cause: NoPacket) -> Result<(), NoMemory>
    ensures ok { OnOk result (out.new.items ≡ out.old.items ++ bad_packet_line cause) }
    ensures err { OnErr result (out.new.items ≡ out.old.items) }
{
    match cause {
        NoPacket::Short { have, need } => put_line(
            out,
            &[
                Text(b"bad short"),
                Number(b" have=", have as u64),
                Number(b" need=", need as u64),
            ],
        ),
        NoPacket::Version { byte } => put_line(out, &[Number(b"bad version ", u64::from(byte))]),
        NoPacket::Kind { byte } => put_line(out, &[Number(b"bad kind ", u64::from(byte))]),
        NoPacket::Length { told, left } => put_line(
            out,
            &[
                Text(b"bad length"),
                Number(b" told=", told as u64),
                Number(b" left=", left as u64),
            ],
        ),
    }
}

// Appends the line of a container that is cut or too short for its type.
#[tactic(auto, unfolding(mesh_model::specs::Text::Decode::bad_container_line))]
fn put_bad_container(out: &mut Vec<u8>, flaw: TvlvErr) -> Result<(), NoMemory>
    ensures ok { OnOk result (out.new.items ≡ out.old.items ++ bad_container_line flaw) }
    ensures err { OnErr result (out.new.items ≡ out.old.items) }
{
    match flaw {
        TvlvErr::Cut { place } => {
            put_line(out, &[Text(b"bad cut"), Number(b" place=", place as u64)])
        }
        TvlvErr::BadLength { kind, len } => put_line(
            out,
            &[
                Text(b"bad badlength"),
                Number(b" kind=", u64::from(kind)),
                Number(b" len=", len as u64),
            ],
        ),
    }
}

// Appends the line of so many bytes after a packet.
#[tactic(auto, unfolding(mesh_model::specs::Text::Decode::rest_line))]
fn put_rest(out: &mut Vec<u8>, len: usize) -> Result<(), NoMemory>
    ensures ok { OnOk result (out.new.items ≡ out.old.items ++ rest_line len) }
    ensures err { OnErr result (out.new.items ≡ out.old.items) }
{
    put_line(out, &[Number(b"rest ", len as u64)])
}

/// Appends the line of what ends the packets, which is none where no bytes are left.
pub fn put_ending(out: &mut Vec<u8>, ending: Ending) -> Result<(), NoMemory>
    ensures ok { OnOk result (out.new.items ≡ out.old.items ++ concat (ending_lines ending)) }
    ensures err { OnErr result (out.new.items ≡ out.old.items) }
{
    match ending {
        Ending::Rest { len: 0 } => Ok(()),
        Ending::Rest { len } => put_rest(out, len),
        Ending::BadPacket(cause) => put_bad_packet(out, cause),
        Ending::BadContainer(flaw) => put_bad_container(out, flaw),
    }
}
