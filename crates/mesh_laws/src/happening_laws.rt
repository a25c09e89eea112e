//! What holds of all that happens in a mesh, whatever its nodes put.

ghost use Rattle.std.specs.Prelude.{◌≡◌};
ghost use Rattle.mesh_model.specs.declared.happening.Happening.{Happening};
ghost use Rattle.mesh_model.specs.Net.Happenings.{happening_order};
ghost use Rattle.mesh_laws.specs.HappeningLaws.{AllIsCarriedOut, FindsNext, HasTurnsEnough, LaterIsLater, LastRises, LeavesNothingDue, LimitsArePassedNext, NothingAddedBefore, OneNext, RunsByHappenings, RunsInSlices};

use mesh_model::Happening;

/// Values of the code are ordered as happenings are.
pub fn happenings_have_one_order()
    ensures { (a b : Happening) → ⟦<Happening as Ord>⟧.cmp a b ≡ happening_order a b }
{}

/// The next happening is computed exactly where there is one.
pub fn the_next_happening_is_found()
    ensures { FindsNext }
{}

/// There is at most one next happening.
pub fn one_happening_is_next()
    ensures { OneNext }
{}

/// Happenings are carried out in rising order, each at most once, and nothing is added before them.
pub fn happenings_rise()
    ensures last { LastRises }
    ensures later { LaterIsLater }
    ensures added { NothingAddedBefore }
{}

/// A run has turns enough, leaves nothing due, and carries out all that happens.
pub fn runs_leave_nothing_due()
    ensures turns { HasTurnsEnough }
    ensures quiet { LeavesNothingDue }
    ensures all { AllIsCarriedOut }
{}

/// A limit ends a run exactly before the happening that would pass it.
pub fn a_limit_is_passed_by_the_next_happening()
    ensures { LimitsArePassedNext }
{}

/// A run may be cut at a moment.
pub fn runs_may_be_cut()
    ensures { RunsInSlices }
{}

/// A run may be cut behind its first happening.
pub fn runs_go_by_happenings()
    ensures { RunsByHappenings }
{}
