//! What ends the carrying out of a line.

ghost use Rattle.std.specs.Prelude.{◌≡◌};
ghost use Rattle.mesh_scene.specs.Inner.NetAnswers.{fault_of};
ghost use Rattle.mesh_scene.specs.declared.fault.LineFault.TheVariants as line_fault;

use mesh_base::NoMemory;
use mesh_model::{Refusal, Stop};
use mesh_net::NetErr;
use std::alloc::AllocFailed;

/// What ends the carrying out of a line.
#[derive(Clone, Copy, Debug, PartialEq, Eq)]
pub enum LineFault {
    /// The line is refused, or a limit is reached at it.
    Stopped(Stop),
    /// Memory ran out.
    Memory,
}

impl From<NoMemory> for LineFault {
    ghost from_gives = { λ _ fault. fault ≡ line_fault.Memory };

    fn from(_error: NoMemory) -> LineFault {
        LineFault::Memory
    }
}

impl<T: Drop> From<AllocFailed<T>> for LineFault {
    ghost from_gives = { λ _ fault. fault ≡ line_fault.Memory };

    fn from(_error: AllocFailed<T>) -> LineFault {
        LineFault::Memory
    }
}

/// A net that refused something before has no other answer than want of memory; no scene asks it.
impl From<NetErr> for LineFault {
    ghost from_gives = { λ error fault. fault ≡ fault_of error };

    fn from(error: NetErr) -> LineFault {
        match error {
            NetErr::Limit(name) => LineFault::Stopped(Stop::Limit(name)),
            NetErr::Dead | NetErr::Memory => LineFault::Memory,
        }
    }
}

/// The fault of a line that is refused.
pub fn refused(refusal: Refusal) -> LineFault
    ensures { result ≡ LineFault.Stopped (Stop.Refused refusal) }
{
    LineFault::Stopped(Stop::Refused(refusal))
}
