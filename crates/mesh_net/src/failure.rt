use mesh_base::NoMemory;
use mesh_model::LimitName;
use std::alloc::{AllocError, AllocFailed};
use thiserror::Error;

/// Why a call on a net is refused. After any refusal the net is dead.
#[derive(Clone, Copy, Debug, PartialEq, Eq, Error)]
pub enum NetErr {
    /// A quantity would pass its limit.
    #[error("a limit is passed")]
    Limit(LimitName),
    /// An earlier call was refused.
    #[error("the net is dead")]
    Dead,
    /// Memory ran out.
    #[error("out of memory")]
    Memory,
}

impl From<NoMemory> for NetErr {
    ghost use Rattle.std.specs.Prelude.{◌≡◌};
    ghost use Rattle.mesh_net.specs.declared.failure.NetErr.TheVariants.{Memory};

    ghost from_gives = { λ _ e. e ≡ Memory };

    fn from(_error: NoMemory) -> NetErr {
        NetErr::Memory
    }
}

impl From<AllocError> for NetErr {
    ghost use Rattle.std.specs.Prelude.{◌≡◌};
    ghost use Rattle.mesh_net.specs.declared.failure.NetErr.TheVariants.{Memory};

    ghost from_gives = { λ _ e. e ≡ Memory };

    fn from(_error: AllocError) -> NetErr {
        NetErr::Memory
    }
}

impl<T: Drop> From<AllocFailed<T>> for NetErr {
    ghost use Rattle.std.specs.Prelude.{◌≡◌};
    ghost use Rattle.mesh_net.specs.declared.failure.NetErr.TheVariants.{Memory};

    ghost from_gives = { λ _ e. e ≡ Memory };

    fn from(_error: AllocFailed<T>) -> NetErr {
        NetErr::Memory
    }
}
