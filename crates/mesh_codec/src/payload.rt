//! Client frames, as the packets that carry them have them for payload.

ghost use Rattle.std.specs.Prelude.{◌≡◌, ◌++◌, option_map, OnOk, OnErr};
ghost use Rattle.mesh_model.specs.Packets.Payload.{client_frame_of, payload_spelling};
ghost use Rattle.mesh_codec.specs.Payloads.{seen_frame};

use crate::ether::{ETHER_HEAD_SIZE, put_ether_head, read_ether_frame};
use crate::numbers::CLIENT_ETHERTYPE;
use crate::put::put;
use mesh_base::{Mac, NoMemory, Vid};

/// A client frame where it lies: where it goes, where it comes from, its VLAN, and its text.
#[derive(Clone, Copy, Debug, PartialEq, Eq)]
pub struct ClientFrame<'a> {
    pub dst: Mac,
    pub src: Mac,
    pub vid: Vid,
    pub text: &'a [u8],
}

/// The client frame that bytes are, where they are one. Takes no memory.
pub fn read_client_frame(bytes: &[u8]) -> Option<ClientFrame<'_>>
    ensures { option_map seen_frame result ≡ client_frame_of bytes.now }
{
    let frame = read_ether_frame(CLIENT_ETHERTYPE, bytes)?;
    Some(ClientFrame {
        dst: frame.dst,
        src: frame.src,
        vid: frame.vid,
        text: frame.rest,
    })
}

/// Appends a client frame as packets carry it.
pub fn write_client_frame(out: &mut Vec<u8>, frame: &ClientFrame<'_>) -> Result<(), NoMemory>
    ensures ok { OnOk result (out.new.items
        ≡ out.old.items ++ payload_spelling (seen_frame frame.now)) }
    ensures err { OnErr result (out.new.items ≡ out.old.items) }
{
    out.reserve(ETHER_HEAD_SIZE + frame.text.len())?;
    put_ether_head(out, CLIENT_ETHERTYPE, frame.dst, frame.src, frame.vid);
    put(out, frame.text);
    Ok(())
}
