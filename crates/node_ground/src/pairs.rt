//! What a node keeps of the distributed ARP table: the pairs that it learned, those for which it
//! asked others, and which nodes keep a pair.

ghost use Rattle.std.specs.Prelude.{◌≡◌, ◌↔◌, ◌≤◌, ◌++◌, [], filter_map, length, slice_get, IfOk, IsNone, OnErr, OnOk};
ghost use Rattle.std.specs.List.{cons_option};
ghost use Rattle.mesh_base.specs.declared.address.Mac.{Mac};
ghost use Rattle.mesh_model.specs.Knowledge.Known.{Knowledge};
ghost use Rattle.mesh_model.specs.Knowledge.Pairs.{known_address, pair_keepers, pair_nodes, with_ask, with_learned};
ghost use Rattle.mesh_model.specs.Services.ArpTable.{AskedFor, ToldOf, is_awaited, pairs_at};
ghost use Rattle.mesh_serv.specs.OffersStand.{offered};
ghost use Rattle.node_ground.specs.KnowledgeStands.{KnowledgeStands};
ghost use Rattle.node_ground.specs.PairRows.{keeper_of, other_than};

use crate::knowledge::NodeKnowledge;
use mesh_algo::Algo;
use mesh_base::{Mac, Millis, NoMemory, Vid};
use mesh_dat::candidates;
use mesh_model::service::{ArpRow, Pair};
use mesh_serv::Offer;
use std::alloc::Global;

// The node that a candidate is, if any, where it is another than this one.
fn other_than(me: Mac, candidate: Option<Mac>) -> Option<Mac>
    ensures { result ≡ other_than me candidate }
{
    let node = candidate?;
    (node != me).then_some(node)
}

// Appends a candidate, where it is another node.
fn push_other(nodes: &mut Vec<Mac>, me: Mac, candidate: Option<Mac>) -> Result<(), NoMemory>
    ensures { OnOk result (nodes.new.items
        ≡ nodes.old.items ++ cons_option (other_than me candidate) []) }
{
    if let Some(node) = other_than(me, candidate) {
        nodes.push(node)?;
    }
    Ok(())
}

// The candidates of a pair that are other nodes.
fn others(alloc: Global, me: Mac, candidates: [Option<Mac>; 3]) -> Result<Vec<Mac>, NoMemory>
    ensures { IfOk result (λ nodes. nodes.items ≡ filter_map (other_than me) candidates) }
{
    let [first, second, third] = candidates;
    let mut nodes = Vec::new(alloc);
    push_other(&mut nodes, me, first)?;
    push_other(&mut nodes, me, second)?;
    push_other(&mut nodes, me, third)?;
    Ok(nodes)
}

impl<A: Algo> NodeKnowledge<A> {
    // The originator that offers this, where it may keep pairs.
    fn keeper(&self, now: Millis, orig: Mac, offer: Offer) -> Option<Mac>
        ensures { (me : Mac) (known : Knowledge) → KnowledgeStands A.stands self.now me known →
            result ≡ keeper_of (A.queries me) known now orig (Some (offered offer)) }
    {
        if !self.algo.live(now, orig) || self.algo.route(now, orig).is_none() {
            return None;
        }
        offer.arp_table.then_some(orig)
    }

    // The nodes among which those are that keep a pair: this one, and the others by address.
    fn pair_nodes(&self, me: Mac, now: Millis) -> Result<Vec<Mac>, NoMemory>
        ensures { IfOk result (λ nodes. (known : Knowledge) →
            KnowledgeStands A.stands self.now me known →
            nodes.items ≡ pair_nodes (A.queries me) me known now) }
    {
        let mut nodes = Vec::new(self.alloc);
        nodes.push(me)?;
        for (orig, offer) in self.services.offers.iter() {
            if let Some(node) = self.keeper(now, *orig, *offer) {
                nodes.push(node)?;
            }
        }
        Ok(nodes)
    }

    /// The other nodes that keep a pair, the nearest first.
    pub fn pair_keepers(
        &self,
        me: Mac,
        now: Millis,
        ip: u32,
        vid: Vid,
    ) -> Result<Vec<Mac>, NoMemory>
        ensures { IfOk result (λ keepers. (known : Knowledge) →
            KnowledgeStands A.stands self.now me known →
            keepers.items ≡ pair_keepers (A.queries me) me known now ip vid) }
    {
        let nodes = self.pair_nodes(me, now)?;
        let keepers = candidates(ip, vid, nodes.as_slice());
        others(self.alloc, me, keepers)
    }

    /// Learns the address of a pair. Refused, all is as before.
    pub fn learn(&mut self, now: Millis, ip: u32, vid: Vid, mac: Mac) -> Result<(), NoMemory>
        ensures ok { OnOk result ((me : Mac) (known : Knowledge) →
            KnowledgeStands A.stands self.old me known →
            KnowledgeStands A.stands self.new me (with_learned now ip vid mac known)) }
        ensures err { OnErr result (self.new ≡ self.old) }
    {
        self.services.cache.learn(now, ip, vid, mac)?;
        Ok(())
    }

    /// The address of a pair, while it is known.
    pub fn known_address(&self, now: Millis, ip: u32, vid: Vid) -> Option<Mac>
        ensures { (me : Mac) (known : Knowledge) → KnowledgeStands A.stands self.now me known →
            result ≡ known_address known now ip vid }
    {
        self.services.cache.lookup(now, ip, vid)
    }

    /// The known pair at this place in the order of pairs, from 0.
    pub fn pair_at(&self, now: Millis, i: usize) -> Option<ArpRow>
        ensures at_place { (me : Mac) (known : Knowledge) →
            KnowledgeStands A.stands self.now me known →
            result ≡ slice_get (pairs_at known.services.learned now) i }
        ensures past_end { (me : Mac) (known : Knowledge) →
            KnowledgeStands A.stands self.now me known →
            IsNone result ↔ (length (pairs_at known.services.learned now) ≤ i) }
    {
        self.services.cache.row_at(now, i)
    }

    /// Notes that others are asked for a pair. Refused, all is as before.
    pub fn ask(&mut self, ip: u32, vid: Vid) -> Result<(), NoMemory>
        ensures ok { OnOk result ((me : Mac) (known : Knowledge) →
            KnowledgeStands A.stands self.old me known →
            KnowledgeStands A.stands self.new me (with_ask (AskedFor ip vid) known)) }
        ensures err { OnErr result (self.new ≡ self.old) }
    {
        self.services.asks.ask(Pair { ip, vid })?;
        Ok(())
    }

    /// Notes that a pair was told, and answers whether it was awaited.
    pub fn close(&mut self, ip: u32, vid: Vid) -> bool
        ensures awaited { (me : Mac) (known : Knowledge) →
            KnowledgeStands A.stands self.old me known →
            result ≡ is_awaited known.services.asks ip vid }
        ensures told { (me : Mac) (known : Knowledge) →
            KnowledgeStands A.stands self.old me known →
            KnowledgeStands A.stands self.new me (with_ask (ToldOf ip vid) known) }
    {
        self.services.asks.close(Pair { ip, vid })
    }
}
