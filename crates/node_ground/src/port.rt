ghost use Rattle.std.specs.Prelude.{◌≡◌, [], Option, None, OnOk, IfErr, OnErr};
ghost use Rattle.mesh_model.specs.declared.act.Act.{Act};
ghost use Rattle.mesh_model.specs.declared.ending.LimitName.{LimitName};
ghost use Rattle.node_ground.specs.Errors.{HasPortCause};

use crate::failure::PortErr;
use mesh_model::Act;

/// What takes the acts of a node, in order.
pub trait Port {
    /// It took an act: the port before, the act, the port after.
    ghost takes: { Self → Act → Self → Type 0 };

    /// The port after is as the port before.
    ghost same: { Self → Self → Type 0 };

    /// The limit that all frames of an act together would pass: `Frames`, or else `FrameBytes`.
    ghost over: { Self → Act → Option LimitName };

    /// A vector without bytes, for those of an act. The port stays as it is.
    fn blank(&mut self) -> Vec<u8>
        ensures empty { result.items ≡ [] }
        ensures takes { (act : Act) (new : Self) → takes self.new act new →
            takes self.old act new }
        ensures over { (act : Act) → over self.new act ≡ over self.old act }
        ensures same { (new : Self) → same self.new new → same self.old new };

    /// Takes an act.
    fn put(&mut self, act: Act) -> Result<(), PortErr>
        ensures taken { OnOk result (takes self.old act self.new) }
        ensures within { OnOk result (over self.old act ≡ None) }

        // `Frames` and `FrameBytes` come exactly where that limit would be passed, memory aside.
        ensures cause { IfErr result (HasPortCause (over self.old act)) }
        ensures refused { OnErr result (same self.old self.new) };

    /// A law: a port is as it is.
    ghost same_refl: { (port : Self) → same port port };
}
