ghost use Rattle.std.specs.Prelude.{◌≡◌, ◌<◌, ◌↔◌, IfOk, IsTrue};

use crate::failure::NoMemory;
use std::alloc::Global;

/// How an input or an output in memory answers: the most bytes that one call moves, the numbers
/// (from 1) of the calls that fail, and how many calls were made.
#[derive(Debug, Drop)]
pub struct CallPlan {
    pub piece: usize,
    pub fails: Vec<u64>,
    pub made: u64,
    pub ghost some: { 0 < piece },
}

impl CallPlan {
    ghost use Rattle.mesh_base.specs.Inner.CallPlan.{IsFailing, IsFreshPlan, MakesCall};

    /// The plan before the first call.
    pub fn new(alloc: Global, piece: usize, fails: &[u64]) -> Result<CallPlan, NoMemory>
        requires { 0 < piece }
        ensures ok { IfOk result (IsFreshPlan piece fails.now) }
    {
        let fails = Vec::from_slice(alloc, fails)?;
        Ok(CallPlan {
            piece,
            fails,
            made: 0,
        })
    }

    /// Counts one more call, and tells whether it fails.
    pub fn next_fails(&mut self) -> bool
        ensures value { IsTrue result ↔ IsFailing self.new }
        ensures call { MakesCall self.old self.new }
    {
        self.made = self.made.saturating_add(1);
        self.fails.contains(&self.made)
    }
}
