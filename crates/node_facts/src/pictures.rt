//! The picture that a node puts of itself at a round.

ghost use Rattle.std.specs.Prelude.{◌≡◌, ℕ, List, filter_map, take, IfOk, OnErr, OnOk};
ghost use Rattle.mesh_base.specs.declared.address.Mac.{Mac};
ghost use Rattle.mesh_model.specs.Clients.Mentions.{Mention};
ghost use Rattle.mesh_model.specs.Commits.History.{History};
ghost use Rattle.mesh_model.specs.Commits.Versions.{last_commit};
ghost use Rattle.mesh_model.specs.Knowledge.Known.{Knowledge};
ghost use Rattle.mesh_model.specs.Knowledge.OwnPictures.{puts_picture, takes_part, with_picture};
ghost use Rattle.mesh_model.specs.Packets.Pictures.{picture_spelling};
ghost use Rattle.mesh_model.specs.Routes.BestRoute.{is_over};
ghost use Rattle.mesh_model.specs.Services.Pictures.{clients_in, if_neighbour, most_clients, most_neighbours, own_picture};
ghost use Rattle.node_ground.specs.KnowledgeStands.{KnowledgeStands};
ghost use Rattle.node_ground.specs.SettingsSeen.{settings_seen};
ghost use Rattle.tt_local.specs.Locals.{LocalsStand};

use crate::asking::put;
use crate::rounds::TICKS_OF_ROUND;
use mesh_algo::Algo;
use mesh_base::{Entry, Key, Mac, Millis, NoMemory};
use mesh_model::{AlfredMode, OrigRow};
use mesh_vis::layout::{MOST_CLIENTS, MOST_NEIGHBOURS, PICTURE_TYPE, PICTURE_VERSION};
use mesh_vis::write_vis;
use node_ground::{NodeKnowledge, Place, Settings};
use std::alloc::Global;
use tt_local::Locals;

// Whether a node has a part in the fact store.
fn takes_part(mode: AlfredMode) -> bool
    ensures { result ≡ takes_part mode }
{
    match mode {
        AlfredMode::Off => false,
        AlfredMode::Primary => true,
        AlfredMode::Secondary => true,
    }
}

// Whether a node puts its picture at a tick.
fn puts_picture(settings: Settings, index: u64) -> bool
    ensures { result ≡ puts_picture (settings_seen settings) index }
{
    index % TICKS_OF_ROUND == 0 && settings.pictures && takes_part(settings.fact_store)
}

// Whether the best route to an originator leads straight there.
fn is_neighbour(row: &OrigRow) -> bool
    ensures { result ≡ is_over row.now.orig row.now.next }
{
    match row.next {
        Some(next) => next == row.orig,
        None => false,
    }
}

// Of originators the first neighbours, each with the metric of the route to it.
fn first_neighbours(alloc: Global, rows: &[OrigRow]) -> Result<Vec<(Mac, u32)>, NoMemory>
    ensures { IfOk result (λ neighbours.
        neighbours.items ≡ take most_neighbours (filter_map if_neighbour rows.now)) }
{
    let mut neighbours = Vec::new(alloc);
    for row in rows {
        if is_neighbour(row) {
            neighbours.push((row.orig, row.metric))?;
        }
    }
    neighbours.truncate(MOST_NEIGHBOURS);
    Ok(neighbours)
}

// The first clients of a table.
fn first_clients(alloc: Global, table: &[Entry]) -> Result<Vec<Key>, NoMemory>
    ensures { IfOk result (λ clients. clients.items ≡ take most_clients (clients_in table.now)) }
{
    let mut clients = Vec::new(alloc);
    for entry in table {
        clients.push(entry.key)?;
    }
    clients.truncate(MOST_CLIENTS);
    Ok(clients)
}

// The picture of a node at a moment, in bytes.
fn picture_bytes<A: Algo>(
    kept: &NodeKnowledge<A>,
    locals: &Locals,
    now: Millis,
) -> Result<Vec<u8>, NoMemory>
    ensures { IfOk result (λ bytes. (me : Mac) (known : Knowledge) (mentions : List Mention)
        (history : History) (since : ℕ) → KnowledgeStands A.stands kept.now me known →
        LocalsStand locals.now mentions history since →
        bytes.items ≡ picture_spelling (own_picture (A.queries me) known.routes now
        (last_commit history.commits).table)) }
{
    let rows = kept.algo.originators(kept.alloc, now)?;
    let neighbours = first_neighbours(kept.alloc, rows.as_slice())?;
    let clients = first_clients(kept.alloc, locals.last_table().as_slice())?;
    let mut bytes = Vec::new(kept.alloc);
    write_vis(&mut bytes, neighbours.as_slice(), clients.as_slice())?;
    Ok(bytes)
}

/// A tick. At a round a node with a part in the fact store puts its picture, with its last commit,
/// where pictures are on. Refused, all is as before.
pub fn put_picture<A: Algo>(
    kept: &mut NodeKnowledge<A>,
    locals: &Locals,
    at: Place,
    index: u64,
) -> Result<(), NoMemory>
    ensures ok { (known : Knowledge) (mentions : List Mention) (history : History) (since : ℕ) →
        KnowledgeStands A.stands kept.old at.me known →
        LocalsStand locals.now mentions history since →
        OnOk result (KnowledgeStands A.stands kept.new at.me
        (with_picture (A.queries at.me) at.me at.now index (last_commit history.commits).table
        known)) }
    ensures err { OnErr result (kept.new ≡ kept.old) }
{
    if !puts_picture(kept.services.settings, index) {
        return Ok(());
    }
    let bytes = picture_bytes(kept, locals, at.now)?;
    put(kept, at, PICTURE_TYPE, PICTURE_VERSION, bytes.as_slice())?;
    Ok(())
}
