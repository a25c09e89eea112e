//! How what a row put into a list goes to the port of the node.

ghost use Rattle.std.specs.Prelude.{◌≡◌, ◌≤◌, ◌+◌, false, is_err, List, Option, OnOk};
ghost use Rattle.std.specs.Option.{option_or};
ghost use Rattle.mesh_model.specs.declared.act.Act.{Act};
ghost use Rattle.mesh_model.specs.Acts.Cuts.{cut_acts, cuts_among};
ghost use Rattle.mesh_model.specs.Acts.NodeLimits.{NodeLimit, cut_limit};
ghost use Rattle.node_cuts.specs.Collected.{AreUncut, Collected, cutter_of, is_memory};
ghost use Rattle.node_ground.specs.Puts.{Leaves};

use crate::acts::Acts;
use crate::cutter::Cutter;
use node_ground::{NodeErr, Port};
use std::alloc::Global;

// Whether an error is want of memory.
fn is_memory(error: NodeErr) -> bool
    ensures { result ≡ is_memory error }
{
    match error {
        NodeErr::Memory => true,
        NodeErr::Clients
        | NodeErr::Vlans
        | NodeErr::Frames
        | NodeErr::FrameBytes
        | NodeErr::Cuts
        | NodeErr::Dead => false,
    }
}

/// Puts what a row collected, cut where it is too long, and answers as the row did; where it lacked
/// memory nothing is put.
#[inline(always)]
pub fn hand_over<P: Port>(
    cutter: &mut Cutter,
    alloc: Global,
    port: &mut P,
    collected: Acts,
    answer: Result<(), NodeErr>,
) -> Result<(), NodeErr>
    requires few { cutter.old.cuts ≤ 65535 }
    ensures puts { (own : Option NodeLimit) (whole : List Act) → AreUncut cutter.old.most own →
        Collected own whole answer collected →
        Leaves P.takes P.same P.over (option_or own (cut_limit (cutter_of cutter.old) whole))
        port.old (cut_acts (cutter_of cutter.old) whole) result port.new }
    ensures counted { (own : Option NodeLimit) (whole : List Act) →
        Collected own whole answer collected → OnOk result
        (cutter.new.cuts ≡ cutter.old.cuts + cuts_among cutter.old.most whole) }
    ensures done { OnOk result (is_err answer ≡ false) }
{
    match answer {
        Ok(()) => {
            cutter.put_all(alloc, port, collected.into_vec())?;
            Ok(())
        }
        Err(error) => {
            if is_memory(error) {
                return Err(error);
            }
            cutter.put_all(alloc, port, collected.into_vec())?;
            Err(error)
        }
    }
}
