ghost use Rattle.std.specs.Prelude.{◌≡◌, ◌<◌, length, IfSome, option_copied, slice_get};
ghost use Rattle.mesh_model.specs.Packets.Bodies.{whole_pieces};

/// The piece at this place, of those of this size that the bytes hold whole.
pub(crate) fn piece(bytes: &[u8], size: usize, place: usize) -> Option<&[u8]>
    requires { 0 < size }
    ensures value { option_copied result ≡ slice_get (whole_pieces size bytes.now) place }
    ensures whole { IfSome result (λ piece. length piece.now ≡ size) }
{
    if place >= bytes.len() / size {
        return None;
    }
    let start = size * place;
    Some(&bytes[start..start + size])
}
