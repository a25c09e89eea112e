ghost use Rattle.std.specs.Prelude.{◌≢◌, Err};
ghost use Rattle.tt_table.specs.Table.{HasCause};
ghost use Rattle.tt_table.specs.declared.failure.ApplyErr.TheVariants.{Memory};

use mesh_base::{Entry, Key, NoMemory};
use mesh_model::Change;
use thiserror::Error;

/// Why changes aren't applied to a table: the first that isn't strict, or want of memory.
#[derive(Clone, Copy, Debug, PartialEq, Eq, Error)]
pub enum ApplyErr {
    /// A deletion of an entry that isn't there, or not with these flags.
    #[error("an entry to be deleted is missing")]
    Missing { entry: Entry },
    /// An addition of a key that is there.
    #[error("a key to be added is present")]
    Present { key: Key },
    /// Memory ran out.
    #[error("out of memory")]
    Memory,
}

impl From<NoMemory> for ApplyErr {
    ghost use Rattle.std.specs.Prelude.{◌≡◌};
    ghost use Rattle.tt_table.specs.declared.failure.ApplyErr.TheVariants.{Memory};

    ghost from_gives = { λ _ e. e ≡ Memory };

    fn from(_error: NoMemory) -> ApplyErr {
        ApplyErr::Memory
    }
}

impl ApplyErr {
    /// Why this change isn't strict.
    pub(crate) fn of(change: Change) -> ApplyErr
        ensures cause { HasCause (Err change) result }
        ensures strict { result ≢ Memory }
    {
        if change.del {
            ApplyErr::Missing {
                entry: change.entry,
            }
        } else {
            ApplyErr::Present {
                key: change.entry.key,
            }
        }
    }
}
