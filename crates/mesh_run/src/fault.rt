//! What ends a run before the end of its input.

ghost use Rattle.std.specs.Prelude.{◌≡◌};
ghost use Rattle.mesh_run.specs.Inner.Faults.{fault_at};
ghost use Rattle.mesh_run.specs.declared.fault.Fault.TheVariants as fault;

use mesh_base::NoMemory;
use mesh_model::Stop;
use mesh_scene::LineFault;

/// What ends a run before the end of its input.
#[derive(Clone, Copy, Debug, PartialEq, Eq)]
pub enum Fault {
    /// The run halts at the line of this number, counted from 1.
    Halted { line: u64, stop: Stop },
    /// The input failed.
    Read,
    /// The output failed.
    Write,
    /// Memory ran out.
    Memory,
}

impl Fault {
    /// The fault that ends the run at the line of this number.
    pub fn at(line: u64, fault: LineFault) -> Fault
        ensures { result ≡ fault_at line fault }
    {
        match fault {
            LineFault::Stopped(stop) => Fault::Halted { line, stop },
            LineFault::Memory => Fault::Memory,
        }
    }
}

impl From<NoMemory> for Fault {
    ghost from_gives = { λ _ given. given ≡ fault.Memory };

    fn from(_error: NoMemory) -> Fault {
        Fault::Memory
    }
}
