//! Copies of facts.

ghost use Rattle.std.specs.Prelude.{◌≡◌, ◌++◌, IfOk, OnOk};

use mesh_base::{Bytes, NoMemory};
use mesh_model::{Fact, FactList};
use std::alloc::Global;

// A copy of a fact.
pub(crate) fn copy_of(alloc: Global, fact: &Fact) -> Result<Fact, NoMemory>
    ensures { IfOk result (λ copy. copy ≡ fact.now) }
{
    let bytes = Bytes::from_slice(alloc, fact.bytes.as_slice())?;
    Ok(Fact {
        source: fact.source,
        type_no: fact.type_no,
        version: fact.version,
        bytes,
    })
}

// Copies of facts.
pub(crate) fn copies_of(alloc: Global, facts: &FactList) -> Result<FactList, NoMemory>
    ensures { IfOk result (λ copies. copies ≡ facts.now) }
{
    let mut copies = FactList::new(alloc);
    add_copies(alloc, &mut copies, facts)?;
    Ok(copies)
}

// Adds copies of facts behind others.
pub(crate) fn add_copies(
    alloc: Global,
    others: &mut FactList,
    facts: &FactList,
) -> Result<(), NoMemory>
    ensures { OnOk result (others.new ≡ others.old ++ facts.now) }
{
    others.reserve(facts.len())?;
    for fact in facts.as_slice() {
        others.push(copy_of(alloc, fact)?)?;
    }
    Ok(())
}
