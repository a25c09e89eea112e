//! Nodes that reboot, computed from the definitions alone: what a far number does to the life of
//! its originator and to a round of broadcasts, and what is left of a node's clients and commits.

ghost use Rattle.std.specs.Prelude.{◌≡◌, [], ◌∷◌, ◌++◌, codes, true, false, None, Some};
ghost use Rattle.mesh_base.specs.declared.event.Event.TheVariants.{Alias};
ghost use Rattle.mesh_model.specs.Acts.Rows.{alias_acts, reboot_acts};
ghost use Rattle.mesh_model.specs.Commits.Aliases.{alias_of};
ghost use Rattle.mesh_model.specs.Commits.Announcements.{announced_changes, told_changes};
ghost use Rattle.mesh_model.specs.Commits.History.{committed, last_changes, restarted};
ghost use Rattle.mesh_model.specs.Commits.Versions.{last_commit};
ghost use Rattle.mesh_model.specs.Routes.AlgorithmIv.{iv_queries};
ghost use Rattle.mesh_model.specs.Routes.Life.{meeting};
ghost use Rattle.mesh_model.specs.Tables.Changes.{addition};
ghost use Rattle.mesh_model.specs.declared.act.Act.TheVariants.{Print};
ghost use Rattle.mesh_model.specs.declared.ending.Refusal.TheVariants.{Attached, ExtraWord, MissingWord, UnknownName, WrongKind};
ghost use Rattle.mesh_model.specs.declared.ending.Stop.TheVariants.{Refused};
ghost use Rattle.mesh_model.specs.declared.frame_choice.FrameChoice.TheVariants.{Hidden};
ghost use Rattle.mesh_rows.specs.CommitRows.{me};
ghost use Rattle.mesh_rows.specs.NetLines.{duo};
ghost use Rattle.mesh_rows.specs.NetRows.{EndsAt, Prints};
ghost use Rattle.mesh_rows.specs.RestartRows.{first_round, history_of_256, life_of_100, life_of_36, log_again, log_of_100, log_of_102, second_round, takes};
ghost use Rattle.mesh_rows.specs.RouteRows.{mac_a, mac_b};
ghost use Rattle.mesh_rows.specs.TableRows.{first};

/// A node that reboots has no clients and commits anew, from byte 0 on.
pub fn a_node_that_reboots_begins_anew()
    ensures { Prints Hidden
        (codes "node A 02:00:00:00:00:0a" ∷ codes "frame A 02:00:00:00:01:01 ff:ff:ff:ff:ff:ff - x"
        ∷ codes "run 1000" ∷ codes "reboot A" ∷ codes "show A tl"
        ∷ codes "frame A 02:00:00:00:01:01 ff:ff:ff:ff:ff:ff - x" ∷ codes "run 1000"
        ∷ codes "show A tl" ∷ [])
        (codes "tl A version=0 clients=0" ∷ codes "tl A version=1 clients=1"
        ∷ codes "vlan - sum=81a0d314" ∷ codes "c 02:00:00:00:01:01 - -- age=1000" ∷ []) }
{}

/// What was set stays over a reboot; a group that was joined doesn't.
pub fn settings_stay_over_a_reboot()
    ensures { Prints Hidden
        (codes "node A 02:00:00:00:00:0a" ∷ codes "set A wifi on" ∷ codes "alfred A mode secondary"
        ∷ codes "join A 01:00:5e:01:02:03 -" ∷ codes "reboot A"
        ∷ codes "frame A 02:00:00:00:01:01 ff:ff:ff:ff:ff:ff - x" ∷ codes "show A tl"
        ∷ codes "show A alf" ∷ [])
        (codes "tl A version=0 clients=1" ∷ codes "c 02:00:00:00:01:01 - w- age=0"
        ∷ codes "alfred A mode=secondary facts=0" ∷ []) }
{}

/// A gateway isn't rebooted, nor a LAN; a name and nothing more stands behind the word.
pub fn a_reboot_is_of_a_node_without_a_lan()
    ensures word { EndsAt Hidden (codes "reboot" ∷ []) [] 1 (Refused MissingWord) }
    ensures more { EndsAt Hidden (codes "reboot A b" ∷ []) [] 1 (Refused ExtraWord) }
    ensures name { EndsAt Hidden (codes "reboot X" ∷ []) [] 1 (Refused UnknownName) }
    ensures lan { EndsAt Hidden (duo ++ codes "lan L A" ∷ codes "reboot L" ∷ []) [] 6
        (Refused WrongKind) }
    ensures gateway { EndsAt Hidden (duo ++ codes "lan L A" ∷ codes "reboot A" ∷ []) [] 6
        (Refused Attached) }
{}

/// Number 1 is 99 below 100 and a restart: its life has one number, and the 63 echoes of the node's
/// last 64 numbers still count. Number 100 is not far from 1. Number 2 is wild then, but too early
/// to be a restart: it is late, and counts for the life alone.
pub fn a_rebooted_node_has_a_route_at_once()
    ensures restarts { (iv_queries mac_a).originators log_of_100 101001
        ≡ record { orig = mac_b; seq = 1; seen = 0; next = Some mac_b; metric = 12 } ∷ [] }
    ensures raises { (iv_queries mac_a).originators log_again 101001
        ≡ record { orig = mac_b; seq = 100; seen = 0; next = Some mac_b; metric = 12 } ∷ [] }
    ensures stays { (iv_queries mac_a).originators log_of_102 102001
        ≡ record { orig = mac_b; seq = 100; seen = 0; next = Some mac_b; metric = 12 } ∷ [] }
{}

/// At newest 100 a number is wild that is 64 or more below, or 65,536 or more above.
pub fn a_number_that_is_far_restarts()
    ensures below { meeting 101001 36 life_of_100 ≡ record { late = false; restart = true } }
    ensures near { meeting 101001 37 life_of_100 ≡ record { late = false; restart = false } }
    ensures above { meeting 101001 65636 life_of_100 ≡ record { late = false; restart = true } }
    ensures ahead { meeting 101001 65635 life_of_100 ≡ record { late = false; restart = false } }
    ensures first { meeting 101001 65636 [] ≡ record { late = false; restart = false } }
{}

/// A second restart needs 30,000 ms since the first; until then a wild number is late.
pub fn a_second_restart_waits()
    ensures early { meeting 131000 65572 life_of_36 ≡ record { late = true; restart = false } }
    ensures due { meeting 131001 65572 life_of_36 ≡ record { late = false; restart = true } }
    ensures near { meeting 131000 101 life_of_36 ≡ record { late = false; restart = false } }
{}

/// Number 1 is wild after 65 and begins a round, in which it is taken once. A further round needs
/// 30,000 ms since then.
pub fn a_far_broadcast_begins_a_round()
    ensures again { takes 6000 65 first_round ≡ false }
    ensures near { takes 6000 2 first_round ≡ true }
    ensures wild { takes 6000 1 first_round ≡ true }
    ensures repeated { takes 6100 1 second_round ≡ false }
    ensures ahead { takes 6100 65 second_round ≡ true }
    ensures early { takes 35999 65537 second_round ≡ false }
    ensures due { takes 36000 65537 second_round ≡ true }
    ensures first { takes 6000 65536 [] ≡ true }
{}

/// Commit 256 has the byte and the sums of commit 0, and the first commit of a reboot those of
/// commit 256.
pub fn a_first_commit_may_have_an_alias()
    ensures byte { (last_commit history_of_256.commits).byte ≡ 0 }
    ensures last { alias_of 256 history_of_256.commits ≡ Some 0 }
    ensures rebooted { reboot_acts me history_of_256 ≡ Print (Alias me 257 256) ∷ [] }
    ensures again { reboot_acts me (restarted history_of_256) ≡ Print (Alias me 258 256) ∷ [] }
{}

/// A first commit has no changes, and is answered in full; the next one has its own.
pub fn a_first_commit_has_no_changes()
    ensures none { last_changes (restarted history_of_256) ≡ [] }
    ensures told { told_changes (restarted history_of_256) ≡ None }
    ensures next { announced_changes (committed (first ∷ []) (restarted history_of_256))
        ≡ addition first ∷ [] }
{}
