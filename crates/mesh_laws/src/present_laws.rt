//! What holds of present clients whatever the mentions are: proved from the definitions alone.

ghost use Rattle.mesh_laws.specs.PresentLaws.{HasTheRowOfEachKey, IsInKeyOrder, KeepsLastMembership, KeepsLastMention, KeepsRow};

/// The list of present clients has of each key the row that its last mention and its last
/// membership decide.
pub fn the_last_mention_decides()
    ensures { HasTheRowOfEachKey }
{}

/// Where newer mentions tell of a key, older ones change nothing.
pub fn older_mentions_do_not_matter()
    ensures mention { KeepsLastMention }
    ensures membership { KeepsLastMembership }
    ensures row { KeepsRow }
{}

/// Present clients are listed in key order, each key once.
pub fn present_clients_are_in_key_order()
    ensures { IsInKeyOrder }
{}
