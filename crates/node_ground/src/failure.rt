ghost use Rattle.std.specs.Prelude.{◌≡◌};
ghost use Rattle.node_ground.specs.declared.failure.NodeErr.TheVariants.{Memory};
ghost use Rattle.node_ground.specs.Errors.{client_error_of, error_of};

use mesh_base::NoMemory;
use thiserror::Error;
use tt_local::LocalErr;

/// Why a port doesn't take an act.
#[derive(Clone, Copy, Debug, PartialEq, Eq, Error)]
pub enum PortErr {
    /// Memory ran out.
    #[error("out of memory")]
    Memory,
    /// The frames of the act would be more than may be sent.
    #[error("too many frames")]
    Frames,
    /// The frames of the act would have more bytes than may be sent.
    #[error("too many bytes of frames")]
    FrameBytes,
}

/// Why a node doesn't carry out what it is given.
#[derive(Clone, Copy, Debug, PartialEq, Eq, Error)]
pub enum NodeErr {
    /// Memory ran out.
    #[error("out of memory")]
    Memory,
    /// A client would be one too many.
    #[error("too many clients")]
    Clients,
    /// A client would be in one VLAN too many.
    #[error("too many VLANs")]
    Vlans,
    /// The frames of an act would be more than may be sent.
    #[error("too many frames")]
    Frames,
    /// The frames of an act would have more bytes than may be sent.
    #[error("too many bytes of frames")]
    FrameBytes,
    /// A packet would be cut that is one too many.
    #[error("too many cuts")]
    Cuts,
    /// The node refused something before.
    #[error("the node refused something before")]
    Dead,
}

impl From<NoMemory> for NodeErr {
    ghost from_gives = { λ _ error. error ≡ Memory };

    fn from(_error: NoMemory) -> NodeErr {
        NodeErr::Memory
    }
}

impl From<PortErr> for NodeErr {
    ghost from_gives = { λ refused error. error ≡ error_of refused };

    fn from(refused: PortErr) -> NodeErr {
        match refused {
            PortErr::Memory => NodeErr::Memory,
            PortErr::Frames => NodeErr::Frames,
            PortErr::FrameBytes => NodeErr::FrameBytes,
        }
    }
}

impl From<LocalErr> for NodeErr {
    ghost from_gives = { λ refused error. error ≡ client_error_of refused };

    fn from(refused: LocalErr) -> NodeErr {
        match refused {
            LocalErr::Clients => NodeErr::Clients,
            LocalErr::Vlans => NodeErr::Vlans,
            LocalErr::Memory => NodeErr::Memory,
        }
    }
}
