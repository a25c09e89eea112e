//! The laws hold of every plain run: each mesh of it is one that steps reach.

ghost use Rattle.mesh_tie.specs.LinesByTable.{EventsByTableAreRight, LinesByTableAreRight};
ghost use Rattle.mesh_tie.specs.PlainRuns.{CommandsAreSteps, PlainRunsAreReachable, ReadIsTellable};
ghost use Rattle.mesh_tie.specs.ShownTables.{PrintedTablesAreCommitted, ShownTablesAreCommitted};

/// The addresses and clients of every command that is read can be told.
pub fn lines_are_tellable()
    ensures { ReadIsTellable }
{}

/// A command leads to a mesh that steps reach, also where it ends the run.
pub fn commands_are_steps()
    ensures { CommandsAreSteps }
{}

/// So does every plain run, whatever its input.
pub fn plain_runs_are_reachable()
    ensures { PlainRunsAreReachable }
{}

/// What a run of any lines shows as `ok` of an originator was committed by it for the message that
/// the shown node accepted last, unless an event that was printed before told of an alias of it.
pub fn shown_tables_are_committed()
    ensures shown { ShownTablesAreCommitted }
    ensures printed { PrintedTablesAreCommitted }
{}

/// A frame that a run of any lines prints as sent by table goes to a node whose table names its
/// client, as committed for the message that the sender had accepted last when it sent the frame,
/// unless an event that was printed before told of an alias of that node.
pub fn lines_by_table_are_right()
    ensures events { EventsByTableAreRight }
    ensures lines { LinesByTableAreRight }
{}
