ghost use Rattle.std.specs.Prelude.{◌≡◌};
ghost use Rattle.mesh_base.specs.Faults.{Rose, CountsOne};

use crate::failure::Failed;

/// A count of faults, which stays at its last value.
#[derive(Clone, Copy, Debug, PartialEq, Eq)]
pub struct FaultCount(pub u64);

impl FaultCount {
    /// Counts a fault, and gives what the call that met it answers.
    pub fn raise(&mut self) -> Failed
        ensures rose { Rose self.old.0 self.new.0 }
        ensures counted { CountsOne self.old.0 self.new.0 }
    {
        self.0 = self.0.saturating_add(1);
        Failed
    }
}
