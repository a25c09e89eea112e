//! What stays true of the table machine of an originator, whatever moves are made, while no two of
//! its commits are an alias.

ghost use Rattle.mesh_laws.specs.Machine.MachineLaws.{AgreedHoldTheTold, HeldAreCommits, PiecesAreCounted, PiecesMakeTable, SayingsAgree, SmallTablesAreOnePiece, ToldAreCommits};
ghost use Rattle.mesh_laws.specs.Machine.Misled.{IsMisled};

/// The pieces of a table, put together, are the table.
pub fn pieces_make_their_table()
    ensures whole { PiecesMakeTable }
    ensures small { SmallTablesAreOnePiece }
    ensures counted { PiecesAreCounted }
{}

/// Each announcement and each answer says what its commit is.
pub fn sayings_agree_with_their_commits()
    ensures { SayingsAgree }
{}

/// Each table that a node holds was committed under the byte under which the node holds it.
pub fn held_tables_are_commits()
    ensures { HeldAreCommits }
{}

/// What a node was told are the byte and the sums of a commit.
pub fn told_bytes_and_sums_are_of_commits()
    ensures { ToldAreCommits }
{}

/// A node that holds the told byte and sums holds the table that it was told of.
pub fn agreed_tables_are_the_told()
    ensures { AgreedHoldTheTold }
{}

/// Where two commits are an alias, none of these laws holds: a world that moves reach, in which a
/// node holds the told byte and sums, and yet a table that was never committed.
pub fn an_alias_misleads()
    ensures { IsMisled }
{}
