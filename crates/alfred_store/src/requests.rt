//! The requests for facts that are open.

ghost use Rattle.std.specs.Prelude.{◌≡◌, List, [], ◌∷◌, OnErr, OnOk, option_map};
ghost use Rattle.mesh_model.specs.Knowledge.FactStore.{open_request, without_request};
ghost use Rattle.mesh_model.specs.Knowledge.Served.{FactRequest};
ghost use Rattle.alfred_store.specs.RequestsStand.{RequestsStand, without};

use indexmap::IndexMap;
use mesh_base::{Mac, NoMemory};
use std::alloc::Global;
use std::marker::Model;

/// To whom a request went, and for which type.
#[derive(Clone, Copy, Debug, PartialEq, Eq)]
pub(crate) struct Asked {
    primary: Mac,
    type_no: u8,
}

/// The requests that are open, each known by its id.
#[derive(Debug, Drop)]
pub struct Requests {
    kept: IndexMap<u16, Asked>,
}

impl Model for Requests {
    ghost use Rattle.std.specs.Prelude.{ℕ, List};
    ghost use Rattle.alfred_store.specs.declared.requests.Asked.{Asked};

    ghost Value = { List (ℕ × Asked) };

    ghost view = { λ r. r.kept.entries };
}

impl Requests {
    /// None is open.
    pub fn new(alloc: Global) -> Requests
        ensures { RequestsStand result [] }
    {
        Requests {
            kept: IndexMap::new(alloc),
        }
    }

    /// Opens a request for the facts of a type, under an id, to a primary. It closes the one of its
    /// id.
    pub fn open(&mut self, id: u16, primary: Mac, type_no: u8) -> Result<(), NoMemory>
        ensures ok { (requests : List FactRequest) → RequestsStand self.old requests →
            OnOk result (RequestsStand self.new
            (record { id = id; primary = primary; type_no = type_no }
            ∷ without_request id requests)) }
        ensures err { OnErr result (self.new ≡ self.old) }
    {
        self.kept.insert(id, Asked { primary, type_no })?;
        Ok(())
    }

    /// Closes the request to which an answer from a sender under an id belongs, and tells the type
    /// that it is for, or `None` where none is open.
    pub fn close(&mut self, sender: Mac, id: u16) -> Option<u8>
        ensures asked { (requests : List FactRequest) → RequestsStand self.old requests →
            result ≡ option_map (λ request. request.type_no) (open_request requests sender id) }
        ensures closed { (requests : List FactRequest) → RequestsStand self.old requests →
            RequestsStand self.new (without (open_request requests sender id) requests) }
    {
        let type_no = self.type_asked(sender, id)?;
        self.kept.swap_remove(&id);
        Some(type_no)
    }

    // The type that the request is for to which an answer from a sender under an id belongs.
    fn type_asked(&self, sender: Mac, id: u16) -> Option<u8>
        ensures { (requests : List FactRequest) → RequestsStand self.now requests →
            result ≡ option_map (λ request. request.type_no) (open_request requests sender id) }
    {
        let asked = self.kept.get(&id)?;
        (asked.primary == sender).then_some(asked.type_no)
    }
}
