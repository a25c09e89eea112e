ghost use Rattle.std.specs.Prelude.{◌≡◌, ◌-◌, ◌+◌, ℕ, ◌≤◌, ◌<◌, true, false, Some, IfOk, IfErr, OnOk, OnErr, IsErrOf};
ghost use Rattle.mesh_model.specs.Net.Limits.{clock_limit, scenario_setup};
ghost use Rattle.mesh_net.specs.NetStands.{HoldsFor, IsNet, IsDead, IsLive};
ghost use Rattle.mesh_net.specs.Steps.{LeftAt, RanOn, WentUpTo, IsLate, SliceTells, StepFails, StepLeaves};
ghost use Rattle.mesh_net.specs.Tells.{LeavesRightly, Ran, RanAll, RunTells};

use crate::failure::NetErr;
use crate::net::Net;
use mesh_algo::Algo;
use mesh_base::{Events, Millis};
use mesh_model::LimitName;

/// The last moment, in milliseconds.
pub const CLOCK_LIMIT: Millis = 1_099_511_627_776;

impl<A: Algo + Drop> Net<A> {
    /// Carries out all happenings until a moment, in order, and lets the time pass. The moment
    /// isn't before the clock.
    pub fn run_to(&mut self, t: Millis, log: &mut Events) -> Result<(), NetErr>
        requires net { IsNet A.queries A.stands self.old }
        requires later { HoldsFor A.queries A.stands self.old (λ choice clock mesh. clock ≤ t) }
        ensures ran { HoldsFor A.queries A.stands self.old (λ choice clock mesh.
            OnOk result (RanAll A.queries A.stands (scenario_setup A.queries) self.new choice mesh t
            log.old log.new)) }

        // An earlier refusal comes first, then the clock; want of memory may stand in place of a
        // limit.
        ensures cause { HoldsFor A.queries A.stands self.old (λ choice clock mesh.
            IfErr result (RunTells (scenario_setup A.queries) choice mesh t log.old log.new)) }
        ensures left { HoldsFor A.queries A.stands self.old (λ choice clock mesh.
            OnErr result (LeavesRightly A.queries choice mesh t log.old log.new)) }
        ensures dead { IsDead self.old → IsErrOf result NetErr.Dead × (log.new ≡ log.old) }
        ensures refused { OnErr result (IsDead self.new) }
        ensures net { IsNet A.queries A.stands self.new }
    {
        self.check_run(t)?;
        while self.run_slice(t, u32::MAX, log)? {}
        Ok(())
    }

    /// Carries out at most so many happenings that are due until a moment, in order, and answers
    /// whether more are due; where none is, the time passes. The moment isn't before the clock.
    pub fn run_some(&mut self, t: Millis, most: u32, log: &mut Events) -> Result<bool, NetErr>
        requires net { IsNet A.queries A.stands self.old }
        requires later { HoldsFor A.queries A.stands self.old (λ choice clock mesh. clock ≤ t) }
        ensures ran { HoldsFor A.queries A.stands self.old (λ choice clock mesh.
            IfOk result (Ran A.queries A.stands (scenario_setup A.queries) self.new choice clock
            mesh t most log.old log.new)) }

        // An earlier refusal comes first, then the clock; want of memory may stand in place of a
        // limit.
        ensures cause { HoldsFor A.queries A.stands self.old (λ choice clock mesh.
            IfErr result (RunTells (scenario_setup A.queries) choice mesh t log.old log.new)) }
        ensures left { HoldsFor A.queries A.stands self.old (λ choice clock mesh.
            OnErr result (LeavesRightly A.queries choice mesh t log.old log.new)) }
        ensures dead { IsDead self.old → IsErrOf result NetErr.Dead × (log.new ≡ log.old) }
        ensures refused { OnErr result (IsDead self.new) }
        ensures net { IsNet A.queries A.stands self.new }
    {
        self.check_run(t)?;
        self.run_slice(t, most, log)
    }

    // Refuses a run of a dead net, or one past the last moment.
    fn check_run(&mut self, t: Millis) -> Result<(), NetErr>
        ensures ok { OnOk result ((self.new ≡ self.old) × (self.old.dead ≡ false)
            × (t ≤ clock_limit)) }
        ensures late { (self.old.dead ≡ false) → IfErr result (IsLate t) }
        ensures dead { IsDead self.old → IsErrOf result NetErr.Dead }
        ensures refused { OnErr result (IsDead self.new) }
    {
        if self.dead {
            return Err(NetErr::Dead);
        }
        if t > CLOCK_LIMIT {
            self.dead = true;
            return Err(NetErr::Limit(LimitName::Clock));
        }
        Ok(())
    }

    // Carries out at most so many happenings that are due until a moment, and answers whether more
    // are due; where none is, the time passes.
    fn run_slice(&mut self, t: Millis, most: u32, log: &mut Events) -> Result<bool, NetErr>
        requires live { IsLive A.queries A.stands self.old }
        requires soon { t ≤ clock_limit }
        requires later { HoldsFor A.queries A.stands self.old (λ choice clock mesh. clock ≤ t) }
        ensures ran { HoldsFor A.queries A.stands self.old (λ choice clock mesh.
            IfOk result
            (RanOn A.queries A.stands self.new choice clock mesh t most log.old log.new)) }
        ensures cause { HoldsFor A.queries A.stands self.old (λ choice clock mesh.
            IfErr result (SliceTells (scenario_setup A.queries) choice mesh t log.old log.new)) }
        ensures left { HoldsFor A.queries A.stands self.old (λ choice clock mesh.
            OnErr result (LeftAt A.queries choice mesh t log.old log.new)) }
        ensures refused { OnErr result (IsDead self.new) }
    {
        self.step_often(t, most, log)?;
        if self.post.queue.is_due(t) {
            return Ok(true);
        }
        self.clock = t;
        Ok(false)
    }

    // Carries out at most so many happenings that are due until a moment.
    fn step_often(&mut self, t: Millis, most: u32, log: &mut Events) -> Result<(), NetErr>
        requires live { IsLive A.queries A.stands self.old }
        requires soon { t ≤ clock_limit }
        requires later { HoldsFor A.queries A.stands self.old (λ choice clock mesh. clock ≤ t) }
        ensures went { HoldsFor A.queries A.stands self.old (λ choice clock mesh.
            OnOk result (WentUpTo A.queries A.stands self.new choice clock mesh t most
            log.old log.new)) }
        ensures cause { HoldsFor A.queries A.stands self.old (λ choice clock mesh.
            IfErr result (SliceTells (scenario_setup A.queries) choice mesh t log.old log.new)) }
        ensures left { HoldsFor A.queries A.stands self.old (λ choice clock mesh.
            OnErr result (LeftAt A.queries choice mesh t log.old log.new)) }
        ensures refused { OnErr result (IsDead self.new) }
    {
        for _ in 0..most {
            if !self.step(t, log)? {
                return Ok(());
            }
        }
        Ok(())
    }

    // Carries out the next happening, if it is until a moment.
    fn step(&mut self, t: Millis, log: &mut Events) -> Result<bool, NetErr>
        requires live { IsLive A.queries A.stands self.old }
        requires soon { t ≤ clock_limit }
        ensures stepped { HoldsFor A.queries A.stands self.old (λ choice clock mesh.
            IfOk result
            (StepLeaves A.queries A.stands self.new choice clock mesh t log.old log.new)) }
        ensures cause { HoldsFor A.queries A.stands self.old (λ choice clock mesh.
            IfErr result (StepFails A.queries mesh t)) }
        ensures as_before { OnErr result (log.new ≡ log.old) }
        ensures refused { OnErr result (IsDead self.new) }
    {
        let Some(h) = self.post.queue.pop_due(t) else {
            return Ok(false);
        };
        let before = log.len();
        let given = self.happen_whole(h, log);
        self.settle(given, before, log)?;
        self.last = h;
        self.clock = h.moment;
        Ok(true)
    }
}
