ghost use Rattle.std.specs.Prelude.{◌≡◌, ◌++◌, List, map, OnErr, OnOk};
ghost use Rattle.mesh_base.specs.declared.address.Mac.{Mac};
ghost use Rattle.mesh_model.specs.Services.Facts.{FactCall, facts_at};
ghost use Rattle.mesh_model.specs.Text.Pictures.{network_text};
ghost use Rattle.alfred_core.specs.Facts.{FactsStand};

use crate::json::network_value;
use alfred_core::Facts;
use mesh_base::{Millis, NoMemory};
use mesh_model::KeptFact;
use std::alloc::Global;

/// Appends the network as these facts tell of it, as one text in JSON. Refused, nothing is appended.
#[tactic(auto, unfolding(mesh_model::specs::Text::Pictures::network_text))]
pub fn put_network(alloc: Global, out: &mut Vec<u8>, rows: &[&KeptFact]) -> Result<(), NoMemory>
    ensures ok { OnOk result (out.new.items
        ≡ out.old.items ++ network_text (map (λ kept. kept.now.fact) rows.now)) }
    ensures err { OnErr result (out.new.items ≡ out.old.items) }
{
    let network = network_value(alloc, rows)?;
    let text = network.to_vec(alloc)?;
    out.extend_from_slice(text.as_slice())?;
    Ok(())
}

/// Appends the network as the facts that are live tell of it, as one text in JSON: a list of an
/// object for each picture, by source. Refused, nothing is appended.
pub fn report(alloc: Global, out: &mut Vec<u8>, facts: &Facts, now: Millis) -> Result<(), NoMemory>
    ensures ok { (me : Mac) (calls : List FactCall) → FactsStand facts.now me calls →
        OnOk result (out.new.items
        ≡ out.old.items ++ network_text (map (λ kept. kept.fact) (facts_at calls now))) }
    ensures err { OnErr result (out.new.items ≡ out.old.items) }
{
    let rows = facts.live(now)?;
    put_network(alloc, out, rows.as_slice())?;
    Ok(())
}
