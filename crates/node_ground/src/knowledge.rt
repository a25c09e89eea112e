//! What a node knows of the others, in its parts.

ghost use Rattle.std.specs.Prelude.{◌≡◌, []};
ghost use Rattle.mesh_base.specs.declared.address.Mac.{Mac};
ghost use Rattle.mesh_model.specs.Knowledge.Known.{Knowledge, no_knowledge, told_at};
ghost use Rattle.mesh_model.specs.Knowledge.Steps.{after_reboot};
ghost use Rattle.node_ground.specs.KnowledgeStands.{KnowledgeStands};

use crate::broadcasts::Broadcasts;
use crate::services::Services;
use mesh_algo::Algo;
use mesh_base::{Mac, Millis};
use mesh_frag::Frags;
use mesh_icmp::Sessions;
use std::alloc::Global;
use tt_global::Globals;
use tt_sync::Sync;

/// What a node knows of the others, in its parts.
#[derive(Drop)]
pub struct NodeKnowledge<A: Algo> {
    pub alloc: Global,
    pub algo: A,
    pub globals: Globals,
    pub sync: Sync,
    pub sessions: Sessions,
    pub broadcasts: Broadcasts,
    pub frags: Frags,
    /// How many broadcasts were sent, modulo 2^32.
    pub sent: u32,
    pub services: Services,
}

impl<A: Algo> NodeKnowledge<A> {
    /// Nothing is known at the node of an address, by an algorithm that was given nothing.
    pub fn new(alloc: Global, me: Mac, algo: A) -> NodeKnowledge<A>
        ensures { A.stands algo me [] → KnowledgeStands A.stands result me no_knowledge }
    {
        NodeKnowledge {
            alloc,
            algo,
            globals: Globals::new(alloc),
            sync: Sync::new(alloc),
            sessions: Sessions::new(alloc),
            broadcasts: Broadcasts::new(alloc),
            frags: Frags::new(alloc),
            sent: 0,
            services: Services::new(alloc, me),
        }
    }

    /// All that is known at the node of an address is forgotten but its settings, and the algorithm
    /// was given nothing.
    pub fn restart(&mut self, me: Mac)
        ensures { (known : Knowledge) → KnowledgeStands A.stands self.old me known →
            KnowledgeStands A.stands self.new me (after_reboot known) }
    {
        self.algo.restart();
        self.globals = Globals::new(self.alloc);
        self.sync = Sync::new(self.alloc);
        self.sessions = Sessions::new(self.alloc);
        self.broadcasts = Broadcasts::new(self.alloc);
        self.frags = Frags::new(self.alloc);
        self.sent = 0;
        self.services.restart(self.alloc, me);
    }

    /// The byte that an originator was told to have, while it is live.
    pub fn told_at(&self, now: Millis, orig: Mac) -> Option<u8>
        ensures { (me : Mac) (known : Knowledge) → KnowledgeStands A.stands self.now me known →
            result ≡ told_at (A.queries me) known now orig }
    {
        if !self.algo.live(now, orig) {
            return None;
        }
        self.globals.told(orig)
    }
}
