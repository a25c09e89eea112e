//! The client that a client frame is for.

ghost use Rattle.std.specs.Prelude.{◌≡◌};
ghost use Rattle.mesh_codec.specs.Payloads.{seen_frame};
ghost use Rattle.node_clients.specs.FrameRows.{key_to};

use mesh_base::Key;
use mesh_codec::ClientFrame;

/// The client that a client frame is for.
pub(crate) fn key_to(frame: &ClientFrame<'_>) -> Key
    ensures { result ≡ key_to (seen_frame frame.now) }
{
    Key {
        mac: frame.dst,
        vid: frame.vid,
    }
}
