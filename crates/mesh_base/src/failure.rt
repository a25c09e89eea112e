ghost use Rattle.std.specs.Prelude.{◌≡◌};
ghost use Rattle.mesh_base.specs.declared.failure.OpenErr.TheVariants.{Failed as OpenFailed};

use std::alloc::{AllocError, AllocFailed};
use thiserror::Error;

/// Memory ran out.
#[derive(Clone, Copy, Debug, PartialEq, Eq, Error)]
#[error("out of memory")]
pub struct NoMemory;

impl From<AllocError> for NoMemory {
    fn from(_error: AllocError) -> NoMemory {
        NoMemory
    }
}

impl<T: Drop> From<AllocFailed<T>> for NoMemory {
    fn from(_error: AllocFailed<T>) -> NoMemory {
        NoMemory
    }
}

/// A read or a write met a fault, which its intake or sink counted.
#[derive(Clone, Copy, Debug, PartialEq, Eq, Error)]
#[error("input or output failed")]
pub struct Failed;

/// Why an intake wasn't opened.
#[derive(Clone, Copy, Debug, PartialEq, Eq, Error)]
pub enum OpenErr {
    /// A fault, which the intake counted.
    #[error("opening the input failed")]
    Failed,
    /// Memory ran out.
    #[error("out of memory")]
    Memory,
}

impl From<Failed> for OpenErr {
    ghost from_gives = { λ _ e. e ≡ OpenFailed };

    fn from(_error: Failed) -> OpenErr {
        OpenErr::Failed
    }
}
