//! The sighting of a client that a line gives a node.

ghost use Rattle.std.specs.Prelude.{◌≡◌, [], OnOk};
ghost use Rattle.mesh_model.specs.Acts.Choosing.{sighting_acts};
ghost use Rattle.mesh_model.specs.Clients.Limits.{limit_of_mentions};
ghost use Rattle.mesh_model.specs.Clients.Log.{Log};
ghost use Rattle.mesh_model.specs.Clients.Mentions.{Sighted, mentions, sighted_after};
ghost use Rattle.mesh_model.specs.Knowledge.Steps.{after_sighting, knowledge};
ghost use Rattle.node_clients.specs.FrameRows.{Before, HasMentioned, sighting_of};
ghost use Rattle.node_ground.specs.KnowledgeStands.{KnowledgeStands};
ghost use Rattle.node_ground.specs.Puts.{Leaves, behind};

use crate::sightings::sighting;
use mesh_algo::Algo;
use mesh_base::Key;
use node_ground::{NodeErr, NodeKnowledge, Place, Port};
use tt_local::Locals;

/// A client is sighted, with these flags: what is then noted of it, and its advertisement.
pub fn sight_client<A: Algo, P: Port>(
    kept: &mut NodeKnowledge<A>,
    port: &mut P,
    locals: &mut Locals,
    at: Place,
    flags: u8,
    key: Key,
) -> Result<(), NodeErr>
    ensures puts { (log : Log) →
        Before A.stands A.queries kept.old locals.old at.me log at.now →
        Sighted flags ≡ sighted_after log →
        let limit = limit_of_mentions (mentions at.me log) (sighting_of log at.now key) in
        Leaves P.takes P.same P.over (behind [] limit) port.old
        (sighting_acts (A.queries at.me) at.me log at.now key) result port.new }
    ensures noted { (log : Log) →
        Before A.stands A.queries kept.old locals.old at.me log at.now →
        OnOk result (KnowledgeStands A.stands kept.new at.me (after_sighting (A.queries at.me)
        at.me log at.now key (knowledge (A.queries at.me) at.me log))) }
    ensures sighted { (log : Log) →
        Before A.stands A.queries kept.old locals.old at.me log at.now →
        Sighted flags ≡ sighted_after log →
        OnOk result (HasMentioned locals.new at.me log (sighting_of log at.now key)) }
{
    let newly = locals.see(at.now, key, flags)?;
    sighting(kept, port, at, key, newly)?;
    Ok(())
}
