ghost use Rattle.std.specs.Prelude.{◌≡◌};
ghost use Rattle.mesh_scenario.specs.declared.line_err.LineErr.TheVariants.{Memory};

use mesh_base::NoMemory;
use thiserror::Error;

/// Why a line gives no command: the first of these causes, and want of memory.
#[derive(Clone, Copy, Debug, PartialEq, Eq, Error)]
pub enum LineErr {
    /// More than 4,096 bytes stand before the newline.
    #[error("limit line")]
    TooLong,
    /// The line isn't UTF-8.
    #[error("bad utf-8")]
    BadUtf8,
    /// The first word is no command word.
    #[error("unknown command")]
    UnknownCommand,
    /// The form wants a further word.
    #[error("missing word")]
    MissingWord,
    /// A word isn't a name.
    #[error("bad name")]
    BadName,
    /// A word isn't a hardware address.
    #[error("bad mac")]
    BadMac,
    /// A word isn't the number, VLAN, IP address, hex bytes, pattern or option that is wanted.
    #[error("bad number")]
    BadNumber,
    /// A number, an address, a text or a word is none of those that the form takes.
    #[error("out of range")]
    OutOfRange,
    /// A word stands behind the last one of the form.
    #[error("extra word")]
    ExtraWord,
    /// Memory ran out.
    #[error("out of memory")]
    Memory,
}

impl From<NoMemory> for LineErr {
    ghost from_gives = { λ _ error. error ≡ Memory };

    fn from(_failure: NoMemory) -> LineErr {
        LineErr::Memory
    }
}
