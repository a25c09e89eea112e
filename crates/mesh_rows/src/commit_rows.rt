//! Commits of small logs, computed from the definitions alone.

ghost use Rattle.std.specs.Prelude.{◌≡◌, [], ◌∷◌, None, Some};
ghost use Rattle.mesh_model.specs.Commits.Aliases.{alias_of};
ghost use Rattle.mesh_model.specs.Commits.Announcements.{announced_changes, announcement, commit_at_root};
ghost use Rattle.mesh_model.specs.Commits.History.{commits, history};
ghost use Rattle.mesh_model.specs.Commits.Versions.{first_commit};
ghost use Rattle.mesh_model.specs.Tables.Changes.{addition, deletion};
ghost use Rattle.mesh_rows.specs.CommitRows.{aliased, gone_log, group_log, me, wifi_log};
ghost use Rattle.mesh_rows.specs.TableRows.{first, first_by_wifi, group_tagged};

/// A client whose flags alone changed is committed anew, and its message carries both changes.
pub fn a_client_whose_flags_change_is_committed_anew()
    ensures commits { commits me wifi_log
        ≡ record { byte = 2; table = first_by_wifi ∷ [] }
        ∷ record { byte = 1; table = first ∷ [] } ∷ first_commit ∷ [] }
    ensures changes { announced_changes (history me wifi_log)
        ≡ deletion first ∷ addition first_by_wifi ∷ [] }
    ensures sums { (announcement (history me wifi_log)).vlans
        ≡ record { vid = record { 0 = 0 }; sum = 502999474 } ∷ [] }
    ensures root { commit_at_root me wifi_log 2 ≡ record { byte = 1; table = first ∷ [] } }
{}

/// A client that departed is committed away at the next even tick.
pub fn a_client_that_goes_is_committed_away()
    ensures { commits me gone_log ≡ record { byte = 2; table = [] }
        ∷ record { byte = 1; table = first ∷ [] } ∷ first_commit ∷ [] }
{}

/// A joined group doesn't age.
pub fn a_group_stays_until_it_is_left()
    ensures { commits me group_log ≡ record { byte = 2; table = [] }
        ∷ record { byte = 1; table = group_tagged ∷ [] } ∷ first_commit ∷ [] }
{}

/// Two tables of one byte and the same checksums are aliases, where they differ.
pub fn a_commit_has_the_first_alias()
    ensures last { alias_of 3 aliased ≡ Some 1 }
    ensures before { alias_of 2 aliased ≡ None }
{}
