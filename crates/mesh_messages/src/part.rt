ghost use Rattle.mesh_messages.specs.LentFacts.{FitPart, lent_facts};

use mesh_model::Fact;

/// Facts of a transaction that go in one message: the part of this number, from 0. Their bytes keep
/// the message's rest within 1,400.
#[derive(Clone, Copy, Debug)]
pub struct Part<'a> {
    pub number: u16,
    pub facts: &'a [&'a Fact],
    ghost fits: { FitPart (lent_facts facts.now) },
}
