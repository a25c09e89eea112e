use mesh_base::NoMemory;
use thiserror::Error;

/// Why a client isn't noted.
#[derive(Clone, Copy, Debug, PartialEq, Eq, Error)]
pub enum LocalErr {
    /// It would be one more than the 1,024 clients that may be present.
    #[error("too many clients")]
    Clients,
    /// Its VLAN would be one more than the 16 that may have clients.
    #[error("too many VLANs with clients")]
    Vlans,
    /// Memory ran out.
    #[error("out of memory")]
    Memory,
}

impl From<NoMemory> for LocalErr {
    ghost use Rattle.std.specs.Prelude.{◌≡◌};
    ghost use Rattle.tt_local.specs.declared.failure.LocalErr.TheVariants.{Memory};

    ghost from_gives = { λ _ e. e ≡ Memory };

    fn from(_error: NoMemory) -> LocalErr {
        LocalErr::Memory
    }
}
