//! What holds of every mesh that lines and happenings lead to.

ghost use Rattle.mesh_laws.specs.MeshLaws.{DeliveriesAddLater, DeliveriesKeepBytes, DeliveriesKeepSound, EmptyIsSound, FramesStay, HappeningsKeepSound, HappeningsStay, InputsAddLater, InputsKeepBytes, InputsKeepSound, InputsLeaveToCome, LinksChangeNothing, LinksKeepSound, NodesAddLater, NodesKeepSound, RunsKeepBytes, RunsKeepSound, ScenariosFit};

/// It holds before the first line, and the limits of every scenario are low enough.
pub fn the_first_mesh_is_sound()
    ensures empty { EmptyIsSound }
    ensures fits { ScenariosFit }
{}

/// Happenings and runs keep it.
pub fn runs_keep_sound()
    ensures happenings { HappeningsKeepSound }
    ensures runs { RunsKeepSound }
{}

/// What lines do between runs keeps it.
pub fn lines_keep_sound()
    ensures inputs { InputsKeepSound }
    ensures deliveries { DeliveriesKeepSound }
    ensures nodes { NodesKeepSound }
    ensures links { LinksKeepSound }
{}

/// What is to come stays to come, and what is added comes later.
pub fn what_is_to_come_stays()
    ensures happenings { HappeningsStay }
    ensures inputs { InputsLeaveToCome }
    ensures later { InputsAddLater }
    ensures deliveries { DeliveriesAddLater }
    ensures nodes { NodesAddLater }
    ensures links { LinksChangeNothing }
{}

/// A frame stays as it was sent, and is given so at every delivery.
pub fn frames_keep_their_bytes()
    ensures stay { FramesStay }
    ensures runs { RunsKeepBytes }
    ensures deliveries { DeliveriesKeepBytes }
    ensures inputs { InputsKeepBytes }
{}
