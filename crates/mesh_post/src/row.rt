ghost use Rattle.std.specs.Prelude.{◌≡◌, nat_eq, filter, IfOk};
ghost use Rattle.std.specs.List.{list_any};
ghost use Rattle.mesh_post.specs.Lanes.{is_other};
ghost use Rattle.mesh_post.specs.Inner.Links.{between};

use crate::pattern::Pattern;
use mesh_base::{Bytes, Mac, Millis, NoMemory, Reason};
use std::alloc::Global;
use std::marker::Model;

/// A link, by the places of its ends and their addresses.
#[derive(Debug, Drop)]
pub struct Row {
    pub from: u32,
    pub to: u32,
    pub start: Mac,
    pub end: Mac,
    pub tp: u32,
    pub delay: Millis,
    pub pattern: Pattern,
}

/// What a link does with its next frame.
#[derive(Clone, Copy, Debug)]
pub struct Lane {
    pub turn: u32,
    pub mark: u8,
    pub delay: Millis,
    pub end: Mac,
}

/// What a frame brings, and whom.
#[derive(Clone, Copy, Debug)]
pub struct Arrival {
    pub sending: u32,
    /// The place of the node at the link's end.
    pub to: u32,
    /// The address of the node at its start.
    pub from: Mac,
    /// The throughput of the link back, or 0 where there is none.
    pub tp: u32,
}

/// Who acts.
#[derive(Clone, Copy, Debug)]
pub struct Sender {
    /// The place of the node.
    pub place: u32,
    pub mac: Mac,
    pub now: Millis,
    /// What its frames hand on.
    pub root: u64,
}

/// What is sent: the place of a sending, and why.
#[derive(Clone, Copy, Debug)]
pub struct Parcel {
    pub sending: u32,
    pub reason: Option<Reason>,
}

/// What is told of a frame besides its bytes and who sends it.
#[derive(Clone, Copy, Debug)]
pub struct Told {
    pub number: u32,
    pub end: Mac,
    pub reason: Option<Reason>,
}

/// A LAN frame that was put, by the places of its LAN and its sending, and that of the gateway that
/// put it, where one did.
#[derive(Clone, Copy, Debug)]
pub struct Put {
    pub lan: u32,
    pub sending: u32,
    pub by: Option<u32>,
}

/// The bytes of an act, which its frames share, with the root that they have.
#[derive(Debug, Drop)]
pub struct Sending {
    pub root: u64,
    pub bytes: Bytes,
}

/// The places of the links that leave a node, in rising order.
#[derive(Debug, Drop)]
pub struct Ways {
    pub places: Vec<u32>,
}

impl Model for Ways {
    ghost use Rattle.std.specs.Prelude.{ℕ, List};

    ghost Value = { List ℕ };

    ghost view = { λ w. w.places.items };
}

/// The places of the gateways of a LAN, in rising order.
#[derive(Debug, Drop)]
pub struct Gateways {
    pub places: Vec<u32>,
}

impl Model for Gateways {
    ghost use Rattle.std.specs.Prelude.{ℕ, List};

    ghost Value = { List ℕ };

    ghost view = { λ g. g.places.items };
}

impl Gateways {
    /// Whether the node at a place is one of them.
    pub fn has(&self, node: u32) -> bool
        ensures { result ≡ list_any (nat_eq node) self.now }
    {
        self.places.as_slice().contains(&node)
    }

    /// Those of them but the one at a place, where one is named.
    pub fn but(&self, alloc: Global, one: Option<u32>) -> Result<Vec<u32>, NoMemory>
        ensures { IfOk result (λ places. places.items ≡ filter (is_other one) self.now) }
    {
        let mut places = Vec::new(alloc);
        for place in self.places.iter() {
            if is_other(one, *place) {
                places.push(*place)?;
            }
        }
        Ok(places)
    }
}

// Whether a place is another than one, where that is named.
fn is_other(one: Option<u32>, place: u32) -> bool
    ensures { result ≡ is_other one place }
{
    match one {
        None => true,
        Some(one) => one != place,
    }
}

impl Row {
    // Whether the link leads from one node to another.
    pub(crate) fn leads(&self, from: u32, to: u32) -> bool
        ensures { result ≡ between from to self.now }
    {
        self.from == from && self.to == to
    }
}
