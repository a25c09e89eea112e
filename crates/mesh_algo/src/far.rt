ghost use Rattle.std.specs.Prelude.{◌≡◌};
ghost use Rattle.mesh_model.specs.Routes.Numbers.{is_far, may_begin};

use mesh_base::Millis;

/// How much below the greatest a number is far from it.
const FAR_BELOW: u32 = 64;

/// How much above the greatest a number is far from it.
const FAR_ABOVE: u32 = 65_536;

/// How long after a beginning with a far number there is no other, in milliseconds.
const RESTART_PAUSE: Millis = 30_000;

/// Whether a number is far from the greatest.
pub fn is_far(number: u32, greatest: u32) -> bool
    ensures { result ≡ is_far number greatest }
{
    greatest.saturating_sub(number) >= FAR_BELOW || number.saturating_sub(greatest) >= FAR_ABOVE
}

/// Whether there may be a beginning with a far number, by when there last was one.
pub fn may_begin(now: Millis, last: Option<Millis>) -> bool
    ensures { result ≡ may_begin now last }
{
    match last {
        None => true,
        Some(began) => now.saturating_sub(began) >= RESTART_PAUSE,
    }
}
