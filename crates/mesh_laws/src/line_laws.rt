//! What holds of the states that lines lead to.

ghost use Rattle.mesh_laws.specs.LineLaws.{ClockStandsAtTheEnd, CommandsAreReached, EndsChangeNothing, EndsWhereQuiet, FirstIsReached, GoesByHappenings, GoesOn, GoesOnBehind, HappeningsAreReached, NodesKeepTheirAlgorithm, NothingIsDueBetweenLines, PrintedGrows, ReadLinksAreInRange, RefusedChangesNothing, RunsAreReached, TextGrows};

/// A run of a state may be cut at a moment, and behind its first or any of its happenings; what it
/// prints is the same.
pub fn a_run_may_be_cut()
    ensures slices { GoesOn }
    ensures happenings { GoesByHappenings }
    ensures behind { GoesOnBehind }
    ensures quiet { EndsWhereQuiet }
{}

/// The clock stands at the end of a run, and nothing is due there.
pub fn the_clock_stands_at_the_end()
    ensures clock { ClockStandsAtTheEnd }
    ensures quiet { NothingIsDueBetweenLines }
{}

/// What holds of all states that are reached.
pub fn lines_lead_to_what_is_reached()
    ensures first { FirstIsReached }
    ensures runs { RunsAreReached }
    ensures happenings { HappeningsAreReached }
    ensures commands { CommandsAreReached }
{}

/// What is printed stays, and more may follow it.
pub fn what_is_printed_grows()
    ensures printed { PrintedGrows }
    ensures text { TextGrows }
{}

/// A line that is refused, or that passes a limit, changes nothing; a run stops before the
/// happening that would pass one.
pub fn a_refused_line_changes_nothing()
    ensures refused { RefusedChangesNothing }
    ensures ends { EndsChangeNothing }
{}

/// The algorithm that is chosen before the first node is that of all nodes, to the end.
pub fn nodes_keep_their_algorithm()
    ensures { NodesKeepTheirAlgorithm }
{}

/// A link that is read has a delay, a pattern and a throughput in their ranges.
pub fn links_that_are_read_are_in_range()
    ensures { ReadLinksAreInRange }
{}
