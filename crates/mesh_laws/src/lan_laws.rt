//! What holds of LANs and of their gateways.

ghost use Rattle.mesh_laws.specs.GatewayLaws.{DeliveriesKeepLans, EmptyLansStand, GatewaysAgree, GatewaysKeepLans, HappeningsKeepLans, InputsKeepLans, LansKeepLans, LinksKeepLans, NodesKeepLans, PutsKeepLans, RunsKeepLans};
ghost use Rattle.mesh_laws.specs.LanLaws.{GatewaysAddLater, GatewaysKeepBytes, GatewaysKeepSound, LansAddLater, LansKeepBytes, LansKeepSound, PutsAddLater, PutsAsHolder, PutsKeepBytes, PutsKeepSound};

/// What lines do to LANs keeps what holds of every mesh that is reached.
pub fn lan_lines_keep_sound()
    ensures lans { LansKeepSound }
    ensures puts { PutsKeepSound }
    ensures gateways { GatewaysKeepSound }
{}

/// What is to come stays to come, and what is added comes later.
pub fn lan_lines_add_later()
    ensures lans { LansAddLater }
    ensures puts { PutsAddLater }
    ensures gateways { GatewaysAddLater }
{}

/// A link frame stays as it was sent in every log.
pub fn lan_lines_keep_bytes()
    ensures lans { LansKeepBytes }
    ensures puts { PutsKeepBytes }
    ensures gateways { GatewaysKeepBytes }
{}

/// A frame to a group from the mesh is put on a LAN by its source's holder alone.
pub fn a_group_frame_is_put_by_its_holder()
    ensures { PutsAsHolder }
{}

/// All gateways of a LAN have the same holder of every client.
pub fn gateways_agree()
    ensures { GatewaysAgree }
{}

/// What that rests on holds before the first line, and happenings and runs keep it.
pub fn runs_keep_lans()
    ensures empty { EmptyLansStand }
    ensures happenings { HappeningsKeepLans }
    ensures runs { RunsKeepLans }
{}

/// What lines do between runs keeps it.
pub fn lines_keep_lans()
    ensures inputs { InputsKeepLans }
    ensures gateways { GatewaysKeepLans }
    ensures deliveries { DeliveriesKeepLans }
    ensures puts { PutsKeepLans }
    ensures lans { LansKeepLans }
    ensures nodes { NodesKeepLans }
    ensures links { LinksKeepLans }
{}
