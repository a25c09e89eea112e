ghost use Rattle.std.specs.Prelude.{◌≡◌, ℕ, ◌<◌, ◌≤◌, ◌↔◌, [], min, length, take, drop, List, Option, IfSome, IfOk, OnOk, OnErr, IfErr, is_err};
ghost use Rattle.std.specs.Option.{option_copied};
ghost use Rattle.std.specs.Io.{ReadsAtMost};
ghost use Rattle.std.specs.Io.KnownBytes.{Keeps, ReadConsumes};
ghost use Rattle.mesh_base.specs.Faults.{Rose, HasOpenCause};

use crate::call_plan::CallPlan;
use crate::failure::{Failed, NoMemory, OpenErr};
use crate::fault_count::FaultCount;
use crate::outside::{Intake, PIECE_LIMIT};
use std::alloc::Global;

/// An input in memory, which has the same bytes under each name. Before it is opened, all of them
/// are left.
#[derive(Debug, Drop)]
pub struct MemIntake {
    bytes: Vec<u8>,
    given: usize,
    plan: CallPlan,
    faults: FaultCount,
    pub ghost within: { given ≤ length bytes.items },
    pub ghost calm: { plan.fails.items ≡ [] → faults.0 ≡ 0 },
}

impl MemIntake {
    ghost use Rattle.mesh_base.specs.Inner.CallPlan.{IsFreshPlan};
    ghost use Rattle.mesh_base.specs.Inner.Memory.{intake_plan};

    /// An input of these bytes, which gives at most `piece` of them at a read and fails at the
    /// calls of these numbers: reads and opens are counted together, from 1.
    pub fn new(
        alloc: Global,
        bytes: &[u8],
        piece: usize,
        fails: &[u64],
    ) -> Result<MemIntake, NoMemory>
        requires { 0 < piece }
        ensures named { IfOk result (λ intake. (name : Option (List ℕ)) →
            ⟦<MemIntake as Intake>⟧.named intake name ≡ Some bytes.now) }
        ensures left { IfOk result (λ intake.
            ⟦<MemIntake as Intake>⟧.left intake ≡ Some bytes.now) }
        ensures faults { IfOk result (λ intake. ⟦<MemIntake as Intake>⟧.faults intake ≡ 0) }
        ensures plan { IfOk result (λ intake. IsFreshPlan piece fails.now (intake_plan intake)) }
    {
        let bytes = Vec::from_slice(alloc, bytes)?;
        let plan = CallPlan::new(alloc, piece, fails)?;
        Ok(MemIntake {
            given: 0,
            bytes,
            plan,
            faults: FaultCount(0),
        })
    }

    /// The count of faults.
    pub fn faults(&self) -> u64
        ensures value { result ≡ ⟦<MemIntake as Intake>⟧.faults self.now }
    {
        self.faults.0
    }
}

impl Intake for MemIntake {
    ghost use Rattle.mesh_base.specs.Inner.Memory.{known_bytes, known_left, intake_faults, given_count, CallsInput};

    ghost left = { known_left };

    ghost named = { λ intake _. known_bytes intake };

    ghost faults = { intake_faults };

    fn open(&mut self, _name: Option<&str>) -> Result<(), OpenErr>
        ensures opened { OnOk result (known_left self.new ≡ known_bytes self.old) }
        ensures cause { IfErr result
            (HasOpenCause (intake_faults self.old) (intake_faults self.new)) }
        ensures count { intake_faults self.old ≤ intake_faults self.new }
        ensures refused { OnErr result (Keeps (known_left self.old) (known_left self.new)) }

        // Exactly the planned calls fail. A fault counts one more, and nothing else does.
        ensures failed { IfErr result (λ error. error ≡ OpenErr.Failed) }
        ensures call { CallsInput (is_err result) self.old self.new }
    {
        if self.plan.next_fails() {
            return Err(OpenErr::from(self.faults.raise()));
        }
        self.given = 0;
        Ok(())
    }

    fn read(&mut self, buf: &mut [u8]) -> Result<usize, Failed>
        requires some { 0 < length buf.old }
        requires piece { length buf.old ≤ PIECE_LIMIT }
        ensures bound { ReadsAtMost result buf.new }
        ensures bytes { ReadConsumes (known_left self.old) (known_left self.new) result buf.new }
        ensures cause { OnErr result (Rose (intake_faults self.old) (intake_faults self.new)) }
        ensures count { intake_faults self.old ≤ intake_faults self.new }

        // Exactly the planned calls fail. A fault counts one more, and nothing else does.
        ensures given { IfOk result (λ count. count ≡ given_count self.old (length buf.old)) }
        ensures call { CallsInput (is_err result) self.old self.new }
    {
        if self.plan.next_fails() {
            return Err(self.faults.raise());
        }
        let count = give(&self.bytes[self.given..], self.plan.piece, buf);
        self.given += count;
        Ok(count)
    }
}

/// Copies as many of these bytes as one read gives into the front of `buf`.
fn give(left: &[u8], piece: usize, buf: &mut [u8]) -> usize
    ensures count { result ≡ min piece (min (length left.now) (length buf.old)) }
    ensures given { take result buf.new ≡ take result left.now }
{
    let count = piece.min(left.len().min(buf.len()));
    buf[..count].copy_from_slice(&left[..count]);
    count
}
