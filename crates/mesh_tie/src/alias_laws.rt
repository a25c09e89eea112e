//! Where the events of aliases stand, and that all events are printed.

ghost use Rattle.mesh_tie.specs.AliasesStand.{AliasesStandInSteps, EventsArePrinted};

/// Where originator messages stay their originators', an event of an alias stands in the step at
/// which its commit was made, and no event before it tells of that commit. Where a tick made it, it
/// stands behind the frames of the tick's ELP, where the algorithm sends one, and before those of
/// its originator message, which announces the commit; where a line that reboots the node did, it
/// is the line's only event.
pub fn aliases_stand_in_their_steps()
    ensures { AliasesStandInSteps }
{}

/// The events that a run prints are those of its mesh, in their order.
pub fn events_are_printed()
    ensures { EventsArePrinted }
{}
