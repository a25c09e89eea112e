//! The row of messages of the echo location protocol.

ghost use Rattle.std.specs.Prelude.{◌≡◌, ℕ, OnOk, OnErr};
ghost use Rattle.mesh_base.specs.declared.address.Mac.{Mac};
ghost use Rattle.mesh_model.specs.Knowledge.Known.{Knowledge};
ghost use Rattle.mesh_model.specs.Knowledge.Steps.{with_head};
ghost use Rattle.node_ground.specs.KnowledgeStands.{KnowledgeStands, coming};

use mesh_algo::Algo;
use mesh_base::NoMemory;
use mesh_codec::Head;
use node_ground::{Coming, NodeKnowledge};

/// A message of the echo location protocol, which the algorithm takes. It puts nothing.
pub fn elp<A: Algo>(kept: &mut NodeKnowledge<A>, came: Coming, head: &Head) -> Result<(), NoMemory>
    ensures ok { (me : Mac) (known : Knowledge) (number : ℕ) →
        KnowledgeStands A.stands kept.old me known →
        OnOk result (KnowledgeStands A.stands kept.new me
        (with_head (coming came number) head.now known)) }
    ensures err { OnErr result (kept.new ≡ kept.old) }
{
    let _hearing = kept.algo.hear(came.now, came.from, came.tp, head)?;
    Ok(())
}
