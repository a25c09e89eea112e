use mesh_base::NoMemory;
use thiserror::Error;

/// Why a frame isn't pushed.
#[derive(Clone, Copy, Debug, PartialEq, Eq, Error)]
pub enum StoreErr {
    /// It would be one more than the 4,194,304 frames that are kept, or pass the 536,870,912 bytes.
    #[error("too many frames, or too many bytes of frames")]
    Full,
    /// Memory ran out.
    #[error("out of memory")]
    Memory,
}

impl From<NoMemory> for StoreErr {
    ghost use Rattle.std.specs.Prelude.{◌≡◌};
    ghost use Rattle.frame_store.specs.declared.failure.StoreErr.TheVariants.{Memory};

    ghost from_gives = { λ _ e. e ≡ Memory };

    fn from(_error: NoMemory) -> StoreErr {
        StoreErr::Memory
    }
}
