//! The names that a line uses: that of a node, or of a place, which is a LAN or a node.

ghost use Rattle.std.specs.Prelude.{◌≡◌, ℕ, is_some, ◌||◌, IfErr, IfOk};
ghost use Rattle.mesh_model.specs.Run.Demands.{is_attached, is_taken};
ghost use Rattle.mesh_model.specs.Run.Names.{OfNode};
ghost use Rattle.mesh_model.specs.Run.State.{State, lan_place_of, place_of};
ghost use Rattle.mesh_model.specs.Run.Steps.{Step};
ghost use Rattle.mesh_scene.specs.AnswersCommand.{HasLineCause};
ghost use Rattle.mesh_scene.specs.Inner.AtNodes.{IsNameFault, IsNodePlace};
ghost use Rattle.mesh_scene.specs.Inner.AtPlaces.{IsWithin, placed_at, step_there};
ghost use Rattle.mesh_scene.specs.SceneStands.{IsSomewhere, SceneStands};

use crate::fault::{LineFault, refused};
use crate::scene::Scene;
use mesh_model::Refusal;
use mesh_show::Choosable;

/// Where the name of a place leads, by the place of the LAN or of the node.
#[derive(Clone, Copy, Debug, PartialEq, Eq)]
pub enum Whereabouts {
    Lan(u32),
    Node(u32),
}

impl<A: Choosable + Drop> Scene<A> {
    /// The place of the node of this name.
    pub fn place_of(&self, name: &[u8]) -> Option<u32>
        requires somewhere { IsSomewhere A.algorithm A.queries A.stands self.now }
        ensures { (state : State) → SceneStands A.algorithm A.queries A.stands self.now state →
            result ≡ place_of state name.now }
    {
        match self.names.node_place(name) {
            Some(place) => Some(place as u32),
            None => None,
        }
    }

    /// The place of the LAN of this name.
    pub fn lan_place_of(&self, name: &[u8]) -> Option<u32>
        requires somewhere { IsSomewhere A.algorithm A.queries A.stands self.now }
        ensures { (state : State) → SceneStands A.algorithm A.queries A.stands self.now state →
            result ≡ lan_place_of state name.now }
    {
        match self.names.lan_place(name) {
            Some(place) => Some(place as u32),
            None => None,
        }
    }

    /// Whether a node or a LAN has this name.
    pub fn is_taken(&self, name: &[u8]) -> bool
        ensures { (state : State) → SceneStands A.algorithm A.queries A.stands self.now state →
            result ≡ is_taken state name.now }
    {
        self.names.node_place(name).is_some() || self.names.lan_place(name).is_some()
    }

    /// The place of the node of a name that a line uses where a node is needed.
    pub fn node_place(&self, name: &[u8]) -> Result<u32, LineFault>
        requires somewhere { IsSomewhere A.algorithm A.queries A.stands self.now }
        ensures found { (state : State) →
            SceneStands A.algorithm A.queries A.stands self.now state →
            IfOk result (IsNodePlace state name.now) }
        ensures refused { (state : State) →
            SceneStands A.algorithm A.queries A.stands self.now state →
            IfErr result (IsNameFault state (OfNode name.now)) }
    {
        if self.lan_place_of(name).is_some() {
            return Err(refused(Refusal::WrongKind));
        }
        let Some(place) = self.place_of(name) else {
            return Err(refused(Refusal::UnknownName));
        };
        Ok(place)
    }

    /// Whether the node of this name is a gateway.
    fn is_attached(&self, name: &[u8]) -> bool
        requires somewhere { IsSomewhere A.algorithm A.queries A.stands self.now }
        ensures { (state : State) → SceneStands A.algorithm A.queries A.stands self.now state →
            result ≡ is_attached state name.now }
    {
        match self.place_of(name) {
            Some(place) => self.net.is_gateway(place),
            None => false,
        }
    }

    /// Where the name of a place leads. A gateway is no place: it is reached by its LAN.
    pub fn whereabouts(&self, name: &[u8]) -> Result<Whereabouts, LineFault>
        requires somewhere { IsSomewhere A.algorithm A.queries A.stands self.now }
        ensures found { (state : State) (on_lan on_node : ℕ → Step) →
            SceneStands A.algorithm A.queries A.stands self.now state →
            IfOk result (λ there. placed_at name.now on_lan on_node state
            ≡ step_there there on_lan on_node state) }
        ensures within { (state : State) →
            SceneStands A.algorithm A.queries A.stands self.now state →
            IfOk result (IsWithin state) }
        ensures refused { (state : State) (on_lan on_node : ℕ → Step) →
            SceneStands A.algorithm A.queries A.stands self.now state →
            IfErr result (HasLineCause state (placed_at name.now on_lan on_node state)) }
    {
        if self.is_attached(name) {
            return Err(refused(Refusal::Attached));
        }
        if let Some(lan) = self.lan_place_of(name) {
            return Ok(Whereabouts::Lan(lan));
        }
        let Some(node) = self.place_of(name) else {
            return Err(refused(Refusal::UnknownName));
        };
        Ok(Whereabouts::Node(node))
    }
}
