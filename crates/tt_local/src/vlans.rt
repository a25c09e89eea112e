ghost use Rattle.std.specs.Prelude.{◌≡◌, ◌≤◌, ◌∷◌, [], true, List, IfOk, OnOk, length};
ghost use Rattle.mesh_base.specs.declared.client.Vid.{Vid};
ghost use Rattle.mesh_model.specs.Clients.Limits.{distinct_vids};
ghost use Rattle.tt_local.specs.Vlans.{AreAmong, AreVlansOf, has_vid};

use mesh_base::{NoMemory, Vid};
use std::alloc::Global;

/// How many VLANs these and one more are.
pub(crate) fn count_vlans(alloc: Global, vids: &[Vid], vid: Vid) -> Result<usize, NoMemory>
    ensures { IfOk result (λ count. count ≡ length (distinct_vids (vid ∷ vids.now))) }
{
    let mut named = Vec::new(alloc);
    for i in (0..vids.len()).rev() {
        name(&mut named, vids[i])?;
    }
    name(&mut named, vid)?;
    Ok(named.len())
}

/// Names a VLAN, where it isn't named yet.
pub(crate) fn name(named: &mut Vec<Vid>, vid: Vid) -> Result<(), NoMemory>
    ensures vlans { (before : List Vid) → AreVlansOf named.old.items before →
        OnOk result (AreVlansOf named.new.items (vid ∷ before)) }
    ensures kept { AreAmong named.old.items named.new.items }
    ensures named { OnOk result (has_vid named.new.items vid ≡ true) }
{
    if !named.contains(&vid) {
        named.push(vid)?;
    }
    Ok(())
}

/// A count of VLANs that those of any clients, whose VLANs are named, and one more don't pass.
pub(crate) fn most_vlans(named: &[Vid], vid: Vid) -> usize
    ensures { (vids : List Vid) → AreAmong vids named.now →
        length (distinct_vids (vid ∷ vids)) ≤ result }
{
    named.len() + usize::from(!named.contains(&vid))
}
