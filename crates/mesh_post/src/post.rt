ghost use Rattle.std.specs.Prelude.{◌≡◌, ◌∷◌, [], ◌++◌, ◌<◌, List, length, slice_index_or, slice_set, Some, IfOk, ◌+◌, OnOk};
ghost use Rattle.mesh_model.specs.Net.Lans.{with_lan};
ghost use Rattle.mesh_model.specs.Net.Mesh.{NodeLog, NetLan, NetLink, Mesh, empty_mesh};
ghost use Rattle.mesh_model.specs.declared.frame_choice.FrameChoice.TheVariants.{All};
ghost use Rattle.mesh_post.specs.declared.row.Sending.{Sending};
ghost use Rattle.mesh_model.specs.declared.happening.Happening.{Happening};
ghost use Rattle.mesh_laws.specs.Soundness.{IsSound};
ghost use Rattle.mesh_post.specs.Kept.{RowIs};
ghost use Rattle.mesh_post.specs.Joining.{with_node, with_link};
ghost use Rattle.mesh_post.specs.Sent.{InStep};

use crate::frames::Frames;
use crate::queue::Queue;
use crate::row::{Gateways, Put, Row, Sending, Ways};
use crate::rows::Rows;
use mesh_base::NoMemory;
use mesh_model::FrameChoice;
use std::alloc::Global;

/// All that a net keeps besides its nodes.
#[derive(Debug, Drop)]
pub struct Post {
    pub alloc: Global,
    /// In the order of the links.
    pub rows: Rows,
    /// How many frames each link carried.
    pub turns: Vec<u32>,
    /// By the places of the nodes.
    pub ways: Vec<Ways>,
    /// In the order of the LANs.
    pub lans: Vec<Gateways>,
    /// In the order of sending.
    pub frames: Frames,
    /// In the order of putting.
    pub puts: Vec<Put>,
    /// How many sendings are older than the fresh ones.
    pub older: usize,
    /// The sendings of the step under way.
    pub fresh: Vec<Sending>,
    /// How many bytes the frames on links and on LANs have together.
    pub bytes: u64,
    /// What is to come.
    pub queue: Queue,
    /// Which frames become events.
    pub choice: FrameChoice,
}

impl Post {
    // Nothing is kept; all frames become events.
    pub fn new(alloc: Global) -> Post
        ensures stands { InStep result [] empty_mesh.last [] empty_mesh }
        ensures settled { result.fresh.items ≡ [] }
        ensures choice { result.choice ≡ All }
    {
        Post {
            alloc,
            rows: Rows::new(alloc),
            turns: Vec::new(alloc),
            ways: Vec::new(alloc),
            lans: Vec::new(alloc),
            frames: Frames::new(alloc),
            puts: Vec::new(alloc),
            older: 0,
            fresh: Vec::new(alloc),
            bytes: 0,
            queue: Queue::new(alloc),
            choice: FrameChoice::All,
        }
    }

    // No link leaves a new node.
    pub fn add_node(&mut self) -> Result<(), NoMemory>
        ensures joins { (older : List Sending) (last : Happening) (ticks : List Happening)
            (mesh : Mesh) (node : NodeLog) → InStep self.old older last ticks mesh →
            OnOk result (InStep self.new older last ticks (with_node node mesh)) }
        ensures settled { self.new.fresh ≡ self.old.fresh }
        ensures choice { self.new.choice ≡ self.old.choice }
    {
        self.ways.push(Ways {
            places: Vec::new(self.alloc),
        })?;
        Ok(())
    }

    // A link joins.
    pub fn add_link(&mut self, row: Row) -> Result<(), NoMemory>
        ensures joins { (older : List Sending) (last : Happening) (ticks : List Happening)
            (mesh : Mesh) (link : NetLink) → InStep self.old older last ticks mesh →
            IsSound mesh → RowIs mesh.nodes link row →
            OnOk result (InStep self.new older last ticks (with_link link mesh)) }
        ensures settled { self.new.fresh ≡ self.old.fresh }
        ensures choice { self.new.choice ≡ self.old.choice }
    {
        let way = place_of(self.rows.len())?;
        leave(&mut self.ways, row.from, way)?;
        self.turns.push(0)?;
        self.rows.push(row)?;
        Ok(())
    }

    // A LAN joins, with gateways at these places.
    pub fn add_lan(&mut self, gateways: &[u32]) -> Result<(), NoMemory>
        ensures joins { (older : List Sending) (last : Happening) (ticks : List Happening)
            (mesh : Mesh) (lan : NetLan) → InStep self.old older last ticks mesh →
            lan.gateways ≡ gateways.now →
            OnOk result (InStep self.new older last ticks (with_lan lan mesh)) }
        ensures settled { self.new.fresh ≡ self.old.fresh }
        ensures choice { self.new.choice ≡ self.old.choice }
    {
        self.lans.push(Gateways {
            places: Vec::from_slice(self.alloc, gateways)?,
        })?;
        Ok(())
    }
}

// A link at a place leaves a node.
fn leave(ways: &mut Vec<Ways>, node: u32, way: u32) -> Result<(), NoMemory>
    ensures { OnOk result (ways.new.items ≡ slice_set ways.old.items node
        (slice_index_or ways.old.items node [] ++ way ∷ [])) }
{
    if let Some(leaving) = ways.get_mut(node as usize) {
        leaving.places.push(way)?;
    }
    Ok(())
}

// A length as a place.
pub fn place_of(len: usize) -> Result<u32, NoMemory>
    ensures is { IfOk result (λ place. place ≡ len) }
    ensures low { IfOk result (λ place. place < 4294967296) }
{
    match u32::try_from(len) {
        Ok(place) => Ok(place),
        Err(_) => Err(NoMemory),
    }
}
