use mesh_base::{Millis, NoMemory, Vid};
use std::alloc::AllocFailed;
use thiserror::Error;

/// Why an originator isn't asked for its table.
#[derive(Clone, Copy, Debug, PartialEq, Eq, Error)]
pub enum AskErr {
    /// It was asked at this moment, less than 3,000 ms ago.
    #[error("asked at {asked_at}, too soon before")]
    TooSoon { asked_at: Millis },
    /// Memory ran out.
    #[error("out of memory")]
    Memory,
}

impl<T: Drop> From<AllocFailed<T>> for AskErr {
    ghost use Rattle.std.specs.Prelude.{◌≡◌};
    ghost use Rattle.tt_sync.specs.declared.failure.AskErr.TheVariants.{Memory};

    ghost from_gives = { λ _ e. e ≡ Memory };

    fn from(_error: AllocFailed<T>) -> AskErr {
        AskErr::Memory
    }
}

/// Why a client isn't advertised.
#[derive(Clone, Copy, Debug, PartialEq, Eq, Error)]
pub enum AdviseErr {
    /// It was advertised five times in less than 20,000 ms, the first of them at this moment.
    #[error("advertised five times since {oldest}")]
    TooMany { oldest: Millis },
    /// Memory ran out.
    #[error("out of memory")]
    Memory,
}

impl<T: Drop> From<AllocFailed<T>> for AdviseErr {
    ghost use Rattle.std.specs.Prelude.{◌≡◌};
    ghost use Rattle.tt_sync.specs.declared.failure.AdviseErr.TheVariants.{Memory};

    ghost from_gives = { λ _ e. e ≡ Memory };

    fn from(_error: AllocFailed<T>) -> AdviseErr {
        AdviseErr::Memory
    }
}

/// Why a node doesn't answer in an originator's stead.
#[derive(Clone, Copy, Debug, PartialEq, Eq, Error)]
pub enum AnswerErr {
    /// Nothing is held of it, or a table under another byte than the asked one, or under that byte
    /// one whose sum of this VLAN isn't the asked one.
    #[error("the asked table isn't held")]
    NotHeld {
        held: Option<u8>,
        asked: u8,
        vid: Option<Vid>,
    },
    /// Memory ran out.
    #[error("out of memory")]
    Memory,
}

impl From<NoMemory> for AnswerErr {
    ghost use Rattle.std.specs.Prelude.{◌≡◌};
    ghost use Rattle.tt_sync.specs.declared.failure.AnswerErr.TheVariants.{Memory};

    ghost from_gives = { λ _ e. e ≡ Memory };

    fn from(_error: NoMemory) -> AnswerErr {
        AnswerErr::Memory
    }
}
