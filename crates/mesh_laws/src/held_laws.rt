//! What holds of what a node holds of an originator's table while all that comes for it tells of
//! the originator's commits.

ghost use Rattle.mesh_laws.specs.HeldLaws.{CommitsAreToldWhole, GatheredAreOfCommits, KnownAreOfCommits};

/// What is held is a commit, and where it agrees, the commit that was told.
pub fn held_tables_are_of_commits()
    ensures { KnownAreOfCommits }
{}

/// The parts that are gathered are pieces of the commit that was told.
pub fn gathered_parts_are_of_commits()
    ensures { GatheredAreOfCommits }
{}

/// A commit in full is the whole table that was told, where that commit was told.
pub fn told_commits_are_whole()
    ensures { CommitsAreToldWhole }
{}
