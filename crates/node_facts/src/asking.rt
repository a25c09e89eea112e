//! The rows of facts that lines put, and of those that they ask for.

ghost use Rattle.std.specs.Prelude.{◌≡◌, OnErr, OnOk};
ghost use Rattle.mesh_model.specs.declared.line_form.AlfredMode.TheVariants as parts;
ghost use Rattle.mesh_model.specs.Acts.FactRows.{get_acts, get_by};
ghost use Rattle.mesh_model.specs.Knowledge.FactStore.{after_get, after_put};
ghost use Rattle.mesh_model.specs.Knowledge.Known.{Knowledge};
ghost use Rattle.node_ground.specs.KnowledgeStands.{KnowledgeStands, place};
ghost use Rattle.node_ground.specs.Puts.{Puts};

use crate::primaries::chosen_primary;
use crate::sending::send_request;
use crate::telling::{tell, tell_facts};
use mesh_algo::Algo;
use mesh_base::{FactResult, NoMemory};
use mesh_model::AlfredMode;
use node_ground::{NodeErr, NodeKnowledge, Place, Port};

/// A line puts a fact of this node. Refused, all is as before.
pub fn put<A: Algo>(
    kept: &mut NodeKnowledge<A>,
    at: Place,
    type_no: u8,
    version: u8,
    text: &[u8],
) -> Result<(), NoMemory>
    ensures ok { (known : Knowledge) → KnowledgeStands A.stands kept.old at.me known →
        OnOk result (KnowledgeStands A.stands kept.new at.me
        (after_put at.me at.now type_no version text.now known)) }
    ensures err { OnErr result (kept.new ≡ kept.old) }
{
    kept.services.store.put(at.now, type_no, version, text)?;
    Ok(())
}

// A primary prints its live facts of a type.
fn tell_own<A: Algo, P: Port>(
    kept: &NodeKnowledge<A>,
    port: &mut P,
    at: Place,
    type_no: u8,
) -> Result<(), NodeErr>
    ensures { (known : Knowledge) → KnowledgeStands A.stands kept.now at.me known →
        Puts P.takes P.same P.over port.old
        (get_by (A.queries at.me) known (place at) type_no parts.Primary) result port.new }
{
    let facts = kept.services.store.of_type(at.now, type_no)?;
    tell_facts(kept.alloc, port, at, type_no, facts.as_slice())?;
    Ok(())
}

// A secondary asks the chosen primary, if there is one.
fn ask<A: Algo, P: Port>(
    kept: &mut NodeKnowledge<A>,
    port: &mut P,
    at: Place,
    type_no: u8,
) -> Result<(), NodeErr>
    ensures puts { (known : Knowledge) → KnowledgeStands A.stands kept.old at.me known →
        Puts P.takes P.same P.over port.old
        (get_by (A.queries at.me) known (place at) type_no parts.Secondary) result port.new }
    ensures noted { (known : Knowledge) → KnowledgeStands A.stands kept.old at.me known →
        OnOk result (KnowledgeStands A.stands kept.new at.me
        (after_get (A.queries at.me) at.now type_no parts.Secondary known)) }
{
    let Some(primary) = chosen_primary(kept, at.now)? else {
        tell(port, at, type_no, FactResult::NoPrimary)?;
        return Ok(());
    };
    let id = kept.services.store.ask(primary, type_no)?;
    send_request(kept, port, at, primary, id, type_no)?;
    Ok(())
}

/// A line asks for the facts of a type.
#[tactic(auto, unfolding(mesh_model::specs::Acts::FactRows::get_acts))]
pub fn get<A: Algo, P: Port>(
    kept: &mut NodeKnowledge<A>,
    port: &mut P,
    at: Place,
    type_no: u8,
) -> Result<(), NodeErr>
    ensures puts { (known : Knowledge) → KnowledgeStands A.stands kept.old at.me known →
        Puts P.takes P.same P.over port.old
        (get_acts (A.queries at.me) known (place at) type_no) result port.new }
    ensures noted { (known : Knowledge) → KnowledgeStands A.stands kept.old at.me known →
        OnOk result (KnowledgeStands A.stands kept.new at.me
        (after_get (A.queries at.me) at.now type_no known.services.settings.fact_store known)) }
{
    match kept.services.settings.fact_store {
        AlfredMode::Off => tell(port, at, type_no, FactResult::Off)?,
        AlfredMode::Primary => tell_own(kept, port, at, type_no)?,
        AlfredMode::Secondary => ask(kept, port, at, type_no)?,
    }
    Ok(())
}
