//! How a node prints what came of a question.

ghost use Rattle.std.specs.Prelude.{◌∷◌, [], option_map};
ghost use Rattle.alfred_store.specs.Answers.{answered};
ghost use Rattle.mesh_model.specs.Acts.FactRows.{fact_line, fact_told, facts_told};
ghost use Rattle.mesh_messages.specs.LentFacts.{lent_facts};
ghost use Rattle.node_facts.specs.Messages.{answer_acts};
ghost use Rattle.node_ground.specs.KnowledgeStands.{place};
ghost use Rattle.node_ground.specs.Puts.{Puts};

use crate::lists::lend;
use alfred_core::Fact;
use alfred_store::Answer;
use mesh_base::{Bytes, Event, FactResult};
use mesh_model::Act;
use node_ground::{NodeErr, Place, Port};
use std::alloc::Global;

/// What came of a question for the facts of a type is printed.
pub(crate) fn tell<P: Port>(
    port: &mut P,
    at: Place,
    type_no: u8,
    told: FactResult,
) -> Result<(), NodeErr>
    ensures { Puts P.takes P.same P.over port.old
        (fact_told (place at) type_no told ∷ []) result port.new }
{
    port.put(Act::Print(Event::Alfred {
        node: at.me,
        type_no,
        result: told,
    }))?;
    Ok(())
}

// A fact is printed.
fn tell_fact<P: Port>(
    alloc: Global,
    port: &mut P,
    at: Place,
    type_no: u8,
    fact: &Fact,
) -> Result<(), NodeErr>
    ensures { Puts P.takes P.same P.over port.old (fact_line (place at) type_no fact.now ∷ [])
        result port.new }
{
    let text = Bytes::from_slice(alloc, fact.bytes.as_slice())?;
    let told = FactResult::Fact {
        source: fact.source,
        version: fact.version,
        text,
    };
    tell(port, at, type_no, told)?;
    Ok(())
}

/// The facts that answer a question are printed, or that there is none.
pub(crate) fn tell_facts<P: Port>(
    alloc: Global,
    port: &mut P,
    at: Place,
    type_no: u8,
    facts: &[&Fact],
) -> Result<(), NodeErr>
    ensures { Puts P.takes P.same P.over port.old
        (facts_told (place at) type_no (lent_facts facts.now)) result port.new }
{
    if facts.is_empty() {
        tell(port, at, type_no, FactResult::Empty)?;
        return Ok(());
    }
    for fact in facts {
        tell_fact(alloc, port, at, type_no, fact)?;
    }
    Ok(())
}

/// What answers an open request is printed, if anything does.
pub(crate) fn tell_answer<P: Port>(
    alloc: Global,
    port: &mut P,
    at: Place,
    answer: &Option<Answer>,
) -> Result<(), NodeErr>
    ensures { Puts P.takes P.same P.over port.old
        (answer_acts (place at) (option_map answered answer.now)) result port.new }
{
    let Some(Answer { type_no, facts }) = answer else {
        return Ok(());
    };
    let lent = lend(alloc, facts)?;
    tell_facts(alloc, port, at, *type_no, lent.as_slice())?;
    Ok(())
}
