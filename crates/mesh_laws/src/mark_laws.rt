//! What holds of marks and advertisements whatever calls were made, from the definitions alone.

ghost use Rattle.mesh_laws.specs.MarkLaws.{FifthIsTooMany, HasTheMarkOfEachKey, IsInKeyOrder};

/// The list of marks has of each client the mark that the calls leave it, in key order.
pub fn listed_mark()
    ensures each { HasTheMarkOfEachKey }
    ensures in_order { IsInKeyOrder }
{}

/// A client was advertised too often where five of its advertisements are less than 20,000 ms old.
pub fn fifth_is_too_many()
    ensures { FifthIsTooMany }
{}
