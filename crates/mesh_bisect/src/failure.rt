use mesh_base::NoMemory;
use mesh_loops::WatchErr;
use thiserror::Error;

/// Why a line isn't taken.
#[derive(Clone, Copy, Debug, PartialEq, Eq, Error)]
pub enum BisectErr {
    /// Its first word is `route`, and the words behind it are no route.
    #[error("bad route")]
    BadRoute,
    /// It is of an earlier moment than the one under way.
    #[error("time back")]
    TimeBack,
    /// It names one pair more than the 65,536 that may be named.
    #[error("limit pairs")]
    Pairs,
    /// Memory ran out.
    #[error("out of memory")]
    Memory,
}

impl From<NoMemory> for BisectErr {
    ghost use Rattle.std.specs.Prelude.{◌≡◌};
    ghost use Rattle.mesh_bisect.specs.declared.failure.BisectErr.TheVariants.{Memory};

    ghost from_gives = { λ _ e. e ≡ Memory };

    fn from(_error: NoMemory) -> BisectErr {
        BisectErr::Memory
    }
}
