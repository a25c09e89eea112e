//! What holds of the fact store: when a node takes facts.

ghost use Rattle.mesh_laws.specs.FactLaws.{FactsComeWhole, LinesPutFacts, WholePushIsTaken};

/// By a packet the facts of a node stay as they were, or gain exactly those of a push that it makes
/// whole, in this step, at a primary; so before that step none of them is taken. Of all other
/// inputs a line that puts a fact adds it, a reboot leaves none, and nothing else changes them.
pub fn facts_come_whole()
    ensures packets { FactsComeWhole }
    ensures taken { WholePushIsTaken }
    ensures lines { LinesPutFacts }
{}
