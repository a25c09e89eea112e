//! What holds of what a node knows of an originator's table.

ghost use Rattle.mesh_laws.specs.KnownLaws.{AgreesByChecksums, ChangesAsHeard, ChangesAsTaken, FindsEachDifference, FindsLeastDifference, FullAnswerIsTaken, IsAppliedOnward, IsEmptiedByNone, IsTakenInParts, IsTakenOnward, IsTakenWhole, PartsAreTaken};

/// The difference that is found of two lists of sums is the least, and none is found only where the
/// checksums are the same.
pub fn the_least_difference_is_found()
    ensures each { FindsEachDifference }
    ensures least { FindsLeastDifference }
{}

/// What is held agrees where its byte and its checksums are the told ones.
pub fn agreement_is_of_checksums()
    ensures { AgreesByChecksums }
{}

/// What is held changes only with the outcomes that say so.
pub fn outcomes_tell_what_is_held()
    ensures heard { ChangesAsHeard }
    ensures taken { ChangesAsTaken }
{}

/// What is held becomes the empty table, or the table to which changes lead from the one before, or
/// a whole table, under the told byte and checksums.
pub fn held_tables_are_led_to()
    ensures emptied { IsEmptiedByNone }
    ensures applied { IsAppliedOnward }
    ensures onward { IsTakenOnward }
    ensures whole { IsTakenWhole }
    ensures in_parts { IsTakenInParts }
{}

/// A full answer of the told table is taken, and the tables agree then.
pub fn the_told_table_is_taken()
    ensures { FullAnswerIsTaken }
{}

/// The parts of the told table are taken with the last one that was missing, and the tables agree
/// then.
pub fn the_parts_of_the_told_table_are_taken()
    ensures { PartsAreTaken }
{}
