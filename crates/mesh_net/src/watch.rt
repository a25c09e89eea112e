ghost use Rattle.std.specs.Prelude.{◌≡◌, ◌↔◌, ℕ, [], ◌∷◌, List, slice_get, Some, is_some, IfOk, OnOk};
ghost use Rattle.std.specs.Option.{option_map_or};
ghost use Rattle.mesh_model.specs.Net.Limits.{scenario_setup};
ghost use Rattle.mesh_model.specs.Net.Mesh.{Mesh, NodeLog, begun_mesh, empty_mesh};
ghost use Rattle.mesh_model.specs.Net.Watching.{lines_at, lines_of_node, lines_told, takers, takers_of};
ghost use Rattle.mesh_model.specs.declared.frame_choice.FrameChoice.{FrameChoice};
ghost use Rattle.mesh_model.specs.declared.happening.Class.TheVariants.{LanDelivery};
ghost use Rattle.mesh_model.specs.declared.happening.Happening.{Happening};
ghost use Rattle.mesh_model.specs.declared.route_line.RouteLine.{RouteLine};
ghost use Rattle.mesh_net.specs.NetStands.{HoldsFor, IsDead, NetStands, SeatsStand};
ghost use Rattle.mesh_net.specs.Watching.{HasTold, HasWatched, KeepsAllBut, WatchStands};
ghost use Rattle.mesh_post.specs.Sent.{Grew, InStep};
ghost use Rattle.mesh_post.specs.declared.row.Sending.{Sending};
ghost use Rattle.mesh_told.specs.Told.{ToldStands};

use crate::net::Net;
use crate::seat::Seat;
use mesh_algo::Algo;
use mesh_base::{Events, Millis, NoMemory};
use mesh_model::{Class, Happening};
use mesh_post::Post;
use mesh_told::ToldRoutes;
use std::alloc::Global;

impl<A: Algo + Drop> Net<A> {
    /// From now on the routes of a net without nodes are watched: a happening ends with lines of the
    /// routes that changed. It takes no memory.
    pub fn watch_routes(&mut self)
        ensures watches { (choice : FrameChoice) (clock : ℕ) →
            NetStands A.queries A.stands self.old choice clock empty_mesh →
            NetStands A.queries A.stands self.new choice clock (begun_mesh (Some [])) }
        ensures dead { IsDead self.new ↔ IsDead self.old }
    {
        self.watch = Some(ToldRoutes::new(self.alloc));
    }

    /// Whether its routes are watched.
    pub fn is_watched(&self) -> bool
        ensures { HoldsFor A.queries A.stands self.now (λ choice clock mesh.
            result ≡ is_some mesh.watch) }
    {
        self.watch.is_some()
    }

    // Tells the lines of routes with which a happening ends, where routes are watched.
    pub(crate) fn tell_routes(&mut self, h: Happening, log: &mut Events) -> Result<(), NoMemory>
        ensures told { (older : List Sending) (last : Happening) (ticks : List Happening)
            (mesh : Mesh) → InStep self.old.post older last ticks mesh →
            SeatsStand A.queries A.stands self.old.seats.items mesh.nodes →
            WatchStands self.old.watch mesh.watch →
            OnOk result (HasWatched (lines_told (scenario_setup A.queries) h mesh) self.new.watch
            mesh.watch log.old log.new) }
        ensures kept { KeepsAllBut self.old self.new }
        ensures grew { Grew log.old log.new }
    {
        let Some(told) = &mut self.watch else {
            return Ok(());
        };
        let places = takers(&self.post, h)?;
        tell_all(
            self.alloc,
            self.seats.as_slice(),
            told,
            places.as_slice(),
            h.moment,
            log,
        )?;
        Ok(())
    }
}

// The places of the nodes that take a happening.
fn takers(post: &Post, h: Happening) -> Result<Vec<u32>, NoMemory>
    ensures { (older : List Sending) (last : Happening) (ticks : List Happening) (mesh : Mesh) →
        InStep post.now older last ticks mesh →
        IfOk result (λ places. places.items ≡ takers h mesh) }
{
    match h.class {
        Class::LinkDelivery => places_of(post.alloc, post.receiver(h.place)),
        Class::LanDelivery => gateways_of_put(post, h.place),
        Class::NodeTick => places_of(post.alloc, Some(h.place)),
    }
}

// One place, or none.
fn places_of(alloc: Global, place: Option<u32>) -> Result<Vec<u32>, NoMemory>
    ensures { IfOk result (λ places. places.items ≡ option_map_or (λ one. one ∷ []) place []) }
{
    let mut places = Vec::new(alloc);
    if let Some(place) = place {
        places.push(place)?;
    }
    Ok(places)
}

// The places of the gateways of the LAN on which the LAN frame at a place was put.
fn gateways_of_put(post: &Post, place: u32) -> Result<Vec<u32>, NoMemory>
    ensures { (older : List Sending) (last : Happening) (ticks : List Happening) (mesh : Mesh) →
        InStep post.now older last ticks mesh →
        IfOk result (λ places. places.items ≡ takers_of LanDelivery place mesh) }
{
    match post.put_at(place) {
        Some(put) => post.gateways(put.lan, None),
        None => Ok(Vec::new(post.alloc)),
    }
}

// Tells the lines that are due at the nodes at places, one after another.
fn tell_all<A: Algo>(
    alloc: Global,
    seats: &[Seat<A>],
    told: &mut ToldRoutes,
    places: &[u32],
    now: Millis,
    log: &mut Events,
) -> Result<(), NoMemory>
    ensures told { (nodes : List NodeLog) (before : List RouteLine) →
        SeatsStand A.queries A.stands seats.now nodes → ToldStands told.old before →
        OnOk result (HasTold (lines_at (scenario_setup A.queries) now nodes before places.now)
        before told.new log.old log.new) }
    ensures grew { Grew log.old log.new }
{
    for place in places.iter() {
        tell_at(alloc, seats, told, *place, now, log)?;
    }
    Ok(())
}

// Tells the lines that are due at the node at a place, where there is one.
fn tell_at<A: Algo>(
    alloc: Global,
    seats: &[Seat<A>],
    told: &mut ToldRoutes,
    place: u32,
    now: Millis,
    log: &mut Events,
) -> Result<(), NoMemory>
    ensures told { (nodes : List NodeLog) (before : List RouteLine) →
        SeatsStand A.queries A.stands seats.now nodes → ToldStands told.old before →
        OnOk result (HasTold (lines_of_node (scenario_setup A.queries) now before
        (slice_get nodes place)) before told.new log.old log.new) }
    ensures grew { Grew log.old log.new }
{
    let Some(seat) = seats.get(place as usize) else {
        return Ok(());
    };
    let rows = seat.node.algo().originators(alloc, now)?;
    told.tell(now, seat.mac, rows.as_slice(), log)?;
    Ok(())
}
