//! The row of ticks.

ghost use Rattle.std.specs.Prelude.{◌≡◌, ◌≤◌, ◌<◌, ◌++◌, ◌∷◌, [], ℕ, List, if◌then◌else◌, length, IfOk, IfSome, IsTrue, OnOk};
ghost use Rattle.mesh_model.specs.Acts.OwnContainers.{own_containers};
ghost use Rattle.mesh_model.specs.Acts.Rows.{alias_acts, commit_acts, elp_acts, message_acts, tick_acts};
ghost use Rattle.mesh_model.specs.Clients.Lans as lans;
ghost use Rattle.mesh_model.specs.Clients.Limits.{clients_limit};
ghost use Rattle.mesh_model.specs.Clients.Mentions.{Mention};
ghost use Rattle.mesh_model.specs.Commits.Announcements.{announcement};
ghost use Rattle.mesh_model.specs.Commits.History.{History, after_tick, with_message, committed, is_commit_tick, present_table};
ghost use Rattle.mesh_model.specs.Commits.Versions.{last_commit};
ghost use Rattle.mesh_model.specs.Knowledge.Known.{Knowledge};
ghost use Rattle.mesh_model.specs.Packets.Containers.{containers_spelling};
ghost use Rattle.mesh_model.specs.Routes.Queries.{is_ogm};
ghost use Rattle.mesh_model.specs.Routes.RouteLog.{OwnTick};
ghost use Rattle.node_ground.specs.KnowledgeStands.{KnowledgeStands};
ghost use Rattle.node_ground.specs.Puts.{Puts};
ghost use Rattle.node_ground.specs.SettingsSeen.{settings_seen};
ghost use Rattle.node_lans.specs.BridgeStands.{BridgeStands};
ghost use Rattle.node_tables.specs.Ticks.{HasFew, HasTicked, IsTicked, MayTickNext};
ghost use Rattle.tt_local.specs.Journal.{new_number};
ghost use Rattle.tt_local.specs.Locals.{LocalsStand};

use crate::reboots::tell_alias;
use mesh_algo::Algo;
use mesh_base::{Millis, NoMemory, Steps};
use mesh_codec::Head;
use node_ground::messages::{send_elp, send_own};
use node_ground::{NodeErr, NodeKnowledge, Place, Port, Settings};
use node_lans::Bridge;
use node_lans::bridging::round;
use std::marker::Brand;
use std::sync::ledger::{Blank, Ledger};
use tt_local::Locals;

// Commits the present clients where they differ, and answers the new commit's number.
fn new_commit<L: Ledger>(
    locals: &mut Locals,
    now: Millis,
    blank: Blank,
) -> Result<Option<u64>, NoMemory>
    requires name { blank.name ≡ L.name }
    requires parts { blank.parts ≡ L.parts }
    requires some { 0 < blank.parts }
    ensures committed { (mentions : List Mention) (history : History) (since : ℕ) →
        LocalsStand locals.old mentions history since → since ≤ now →
        OnOk result (LocalsStand locals.new mentions
        (committed (present_table mentions now) history) now) }
    ensures number { (mentions : List Mention) (history : History) (since : ℕ) →
        LocalsStand locals.old mentions history since → since ≤ now →
        IfOk result (λ number. number ≡ new_number (present_table mentions now) history) }
{
    let mut steps = Steps::<L>::new(blank);
    let number = locals.commit(now, &mut steps)?;
    Ok(number)
}

// Commits the present clients where they differ, and tells of the new commit's alias.
fn commit<P: Port>(port: &mut P, locals: &mut Locals, at: Place) -> Result<(), NodeErr>
    ensures puts { (mentions : List Mention) (history : History) (since : ℕ) →
        LocalsStand locals.old mentions history since → since ≤ at.now →
        Puts P.takes P.same P.over port.old
        (alias_acts at.me history.commits
        (committed (present_table mentions at.now) history).commits) result port.new }
    ensures committed { (mentions : List Mention) (history : History) (since : ℕ) →
        LocalsStand locals.old mentions history since → since ≤ at.now →
        OnOk result (LocalsStand locals.new mentions
        (committed (present_table mentions at.now) history) at.now) }
{
    let Some(commit) = new_commit::<Brand>(locals, at.now, Blank::new(1))? else {
        return Ok(());
    };
    tell_alias(port, locals, at, commit)?;
    Ok(())
}

// Sends an originator message with what it announces of the last commit.
fn announce<P: Port>(
    port: &mut P,
    locals: &mut Locals,
    settings: Settings,
    head: Option<Head>,
) -> Result<(), NodeErr>
    requires ogm { IfSome head (λ head. IsTrue (is_ogm head)) }
    requires few { (mentions : List Mention) × (history : History) × (since : ℕ)
        × LocalsStand locals.old mentions history since
        × (length (last_commit history.commits).table ≤ clients_limit) }
    ensures puts { (mentions : List Mention) (history : History) (since : ℕ) →
        LocalsStand locals.old mentions history since →
        Puts P.takes P.same P.over port.old (message_acts head
        (containers_spelling (own_containers (settings_seen settings) (announcement history))))
        result port.new }
    ensures counted { (mentions : List Mention) (history : History) (since : ℕ) →
        LocalsStand locals.old mentions history since →
        OnOk result (LocalsStand locals.new mentions (with_message history) since) }
{
    let announcement = locals.announcement()?;
    send_own(port, &head, settings, &announcement)?;
    Ok(())
}

// An even tick: a commit, its event where it has an alias, and an originator message.
fn own_message<P: Port>(
    port: &mut P,
    locals: &mut Locals,
    settings: Settings,
    at: Place,
    head: Option<Head>,
) -> Result<(), NodeErr>
    requires ogm { IfSome head (λ head. IsTrue (is_ogm head)) }
    requires few { HasFew locals.old at.now }
    ensures puts { (mentions : List Mention) (history : History) (since : ℕ) →
        LocalsStand locals.old mentions history since → since ≤ at.now →
        let after : History = committed (present_table mentions at.now) history in
        Puts P.takes P.same P.over port.old (alias_acts at.me history.commits after.commits
        ++ message_acts head
        (containers_spelling (own_containers (settings_seen settings) (announcement after))))
        result port.new }
    ensures committed { (mentions : List Mention) (history : History) (since : ℕ) →
        LocalsStand locals.old mentions history since → since ≤ at.now →
        OnOk result (LocalsStand locals.new mentions
        (with_message (committed (present_table mentions at.now) history)) at.now) }
{
    commit(port, locals, at)?;
    announce(port, locals, settings, head)?;
    Ok(())
}

// What each node puts at a tick: a message of the echo location protocol, where the algorithm has
// one, and at each second tick a commit, its event where it has an alias, an originator message,
// and the choice of a gateway.
fn beat<A: Algo, P: Port>(
    kept: &mut NodeKnowledge<A>,
    port: &mut P,
    locals: &mut Locals,
    at: Place,
    index: u64,
) -> Result<(), NodeErr>
    requires known { MayTickNext A.stands kept.old at.me index }
    requires few { HasFew locals.old at.now }
    ensures puts { (known : Knowledge) (mentions : List Mention) (history : History) (since : ℕ) →
        KnowledgeStands A.stands kept.old at.me known →
        LocalsStand locals.old mentions history since → since ≤ at.now →
        let after : History = committed (present_table mentions at.now) history in
        Puts P.takes P.same P.over port.old
        (elp_acts (A.queries at.me) known.routes index ++ (if is_commit_tick index
        then commit_acts (A.queries at.me) at.me known.services.settings known.routes index
        history after else [])) result port.new }
    ensures ticked { IsTicked A.stands (A.queries at.me) at index kept.old kept.new result }
    ensures committed { HasTicked at.now index locals.old locals.new result }
{
    let beats = kept.algo.tick(at.now, index);
    send_elp(port, beats.elp)?;
    if index % 2 != 0 {
        return Ok(());
    }
    own_message(port, locals, kept.services.settings, at, beats.ogm)?;
    kept.choose_gateway(at.now)?;
    Ok(())
}

/// A tick: what each node puts, and at each twentieth what a gateway tells its LAN.
pub fn tick<A: Algo, P: Port>(
    kept: &mut NodeKnowledge<A>,
    port: &mut P,
    locals: &mut Locals,
    bridge: &Bridge,
    at: Place,
    index: u64,
) -> Result<(), NodeErr>
    requires known { MayTickNext A.stands kept.old at.me index }
    requires few { HasFew locals.old at.now }
    ensures puts { (known : Knowledge) (mentions : List Mention) (history : History) (since : ℕ)
        (gateway : lans.Bridge) → KnowledgeStands A.stands kept.old at.me known →
        LocalsStand locals.old mentions history since → since ≤ at.now →
        BridgeStands bridge.now at.me gateway →
        Puts P.takes P.same P.over port.old
        (tick_acts (A.queries at.me) at.me known.services.settings known.routes mentions history
        gateway at.now index) result port.new }
    ensures ticked { IsTicked A.stands (A.queries at.me) at index kept.old kept.new result }
    ensures committed { HasTicked at.now index locals.old locals.new result }
{
    beat(kept, port, locals, at, index)?;
    round(kept.alloc, port, bridge, at, index)?;
    Ok(())
}
