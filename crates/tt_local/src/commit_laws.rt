//! What holds of the commits of a node.

ghost use Rattle.tt_local.specs.CommitLaws.{NoAliasWasSeen, TablesStay};

/// The table of a commit stays that of its number, whatever comes after it.
pub fn tables_of_commits_stay()
    ensures { TablesStay }
{}

/// Where none of the commits has an alias, no two of them have the same byte and checksums and
/// different tables.
pub fn no_alias_was_seen()
    ensures { NoAliasWasSeen }
{}
