ghost use Rattle.std.specs.Prelude.{◌≡◌, ◌≤◌};
ghost use Rattle.mesh_model.specs.Routes.Quality.{transmit_quality as value_of};

/// The greatest quality.
pub(crate) const FULL_QUALITY: u8 = 255;

/// The value of an OGM that says `tq`, from a neighbour of this echo quality and this receive
/// quality.
pub(crate) fn transmit_quality(tq: u8, echo: u32, receive: u32) -> u8
    requires { receive ≤ 64 }
    ensures { result ≡ value_of tq echo receive }
{
    if receive == 0 {
        return 0;
    }
    let full = u32::from(FULL_QUALITY);
    let link = full * echo.min(receive) / receive;
    let missed = 64 - receive;
    let asymmetry = full - full * (missed * missed * missed) / 262_144;
    let value = u32::from(tq) * link * asymmetry / 65_025;
    value as u8
}
