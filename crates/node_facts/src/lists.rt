//! Lists of facts, as they come and as they are lent.

ghost use Rattle.std.specs.Prelude.{◌≡◌, IfOk};
ghost use Rattle.mesh_messages.specs.LentFacts.{lent_facts};

use alfred_core::{Fact, FactList};
use mesh_base::NoMemory;
use mesh_messages::Facts;
use std::alloc::Global;

/// The facts of a part, each in memory of its own.
pub(crate) fn to_list(alloc: Global, facts: Facts<'_>) -> Result<FactList, NoMemory>
    ensures { IfOk result (λ list. list ≡ facts.entry) }
{
    let mut list = FactList::new(alloc);
    for fact in facts {
        list.push(fact.to_fact(alloc)?)?;
    }
    Ok(list)
}

/// The facts of a list, lent.
pub(crate) fn lend(alloc: Global, list: &FactList) -> Result<Vec<&Fact>, NoMemory>
    ensures { IfOk result (λ facts. lent_facts facts.items ≡ list.now) }
{
    let mut facts = Vec::new(alloc);
    for i in 0..list.len() {
        facts.push(list.at(i).unwrap())?;
    }
    Ok(facts)
}
