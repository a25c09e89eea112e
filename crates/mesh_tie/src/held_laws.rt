//! What any node holds of an originator's tables, while no two of its commits are an alias.

ghost use Rattle.mesh_tie.specs.FullAnswers.{FullAnswersRepair, PartsRepair};
ghost use Rattle.mesh_tie.specs.TieLaws.{AgreedAreTold, GatheredAreCommitted, HeldAreCommitted};

/// Every table that a node holds was committed under the byte under which the node holds it.
pub fn held_tables_were_committed()
    ensures { HeldAreCommitted }
{}

/// The parts that a node gathers of a table, if any, are pieces of the commit which the last accepted
/// message announced, and they are of as many as it has.
pub fn gathered_parts_were_told_last()
    ensures { GatheredAreCommitted }
{}

/// A table in agreement is that of the commit which the last accepted message announced.
pub fn agreed_tables_were_told_last()
    ensures { AgreedAreTold }
{}

/// An answer in full that an originator makes from a commit is taken where that commit was told
/// last, whatever is held, and the tables agree then; aliases don't matter to it. Where it comes in
/// parts, it is taken with the last one that was missing, in whatever order and however often they
/// come.
pub fn full_answers_repair()
    ensures whole { FullAnswersRepair }
    ensures parts { PartsRepair }
{}
