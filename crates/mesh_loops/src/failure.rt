use mesh_base::NoMemory;
use thiserror::Error;

/// Why a route isn't set.
#[derive(Clone, Copy, Debug, PartialEq, Eq, Error)]
pub enum WatchErr {
    /// Its pair would be one more than the 65,536 that may be set.
    #[error("too many pairs")]
    Pairs,
    /// Memory ran out.
    #[error("out of memory")]
    Memory,
}

impl From<NoMemory> for WatchErr {
    ghost use Rattle.std.specs.Prelude.{◌≡◌};
    ghost use Rattle.mesh_loops.specs.declared.failure.WatchErr.TheVariants.{Memory};

    ghost from_gives = { λ _ e. e ≡ Memory };

    fn from(_error: NoMemory) -> WatchErr {
        WatchErr::Memory
    }
}
