//! The clients that roamed away, by the advertisements that reach their node.

ghost use Rattle.std.specs.Prelude.{◌≡◌, ℕ, List, [], ◌++◌, true, filter_map, option_map};
ghost use Rattle.std.specs.List.{cons_option};
ghost use Rattle.mesh_base.specs.declared.address.Mac.{Mac};
ghost use Rattle.mesh_codec.specs.Frames.{seen};
ghost use Rattle.mesh_model.specs.Clients.Mentions.{Mention, roamed, roamed_by};
ghost use Rattle.mesh_model.specs.Commits.History.{History};
ghost use Rattle.mesh_model.specs.Packets.LinkFrame.{link_frame};
ghost use Rattle.tt_local.specs.Locals.{LocalsStand};

use mesh_base::{Key, Mac};
use mesh_codec::numbers::{IV_OGM, OGM2};
use mesh_codec::{Head, LinkFrame, Packet};
use node_ground::reading::first_roaming;
use tt_local::Locals;

// The client that a packet for this node advertises, if any.
fn roamed_client(me: Mac, packet: &Packet<'_>) -> Option<Key>
    ensures { (now : ℕ) → option_map (roamed now) result ≡ roamed_by me now (seen packet.now) }
{
    match packet.head {
        Head::Utvlv { dst, .. } if dst == me => first_roaming(packet.tail),
        Head::Utvlv { .. }
        | Head::IvOgm { .. }
        | Head::Bcast { .. }
        | Head::Elp { .. }
        | Head::Ogm2 { .. }
        | Head::Unicast { .. }
        | Head::Frag { .. }
        | Head::Unicast4 { .. }
        | Head::Icmp { .. } => None,
    }
}

// Notes the client that a packet for this node advertises, if any.
fn note_packet(locals: &mut Locals, me: Mac, packet: &Packet<'_>)
    ensures { (mentions : List Mention) (history : History) (since now : ℕ) →
        LocalsStand locals.old mentions history since →
        LocalsStand locals.new (cons_option (roamed_by me now (seen packet.now)) mentions)
        history since }
{
    if let Some(key) = roamed_client(me, packet) {
        locals.gone(key);
    }
}

// Whether a link frame begins as an originator message, and so names no client.
fn is_ogm(bytes: &[u8]) -> bool
    ensures { result ≡ true → (me : Mac) (now : ℕ) →
        filter_map (roamed_by me now) (link_frame bytes.now).packets ≡ [] }
{
    let [kind, ..] = bytes else {
        return false;
    };
    *kind == IV_OGM || *kind == OGM2
}

/// Notes the clients that the advertisements for this node in a link frame name.
#[inline(always)]
pub fn note_roamed(locals: &mut Locals, me: Mac, bytes: &[u8])
    ensures { (mentions : List Mention) (history : History) (since now : ℕ) →
        LocalsStand locals.old mentions history since →
        LocalsStand locals.new
        (filter_map (roamed_by me now) (link_frame bytes.now).packets ++ mentions) history since }
{
    if is_ogm(bytes) {
        return;
    }
    let mut frame = LinkFrame::new(bytes);
    while let Ok(packet) = frame.next() {
        note_packet(locals, me, &packet);
    }
}
