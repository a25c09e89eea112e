//! What holds of the gateway that a node chooses, and of the frames that it sends for a group.

ghost use Rattle.mesh_laws.specs.ServiceLaws.{AnyIsChosen, BestIsGreatest, ChosenIsAmong, GroupGoesToReceivers, GroupIsFlooded, NoneLeadsTheLate, ReceiversAscend, StableStays};

/// The chosen gateway is among the rows, and one is chosen where there is a row.
pub fn a_gateway_is_chosen_among_rows()
    ensures among { ChosenIsAmong }
    ensures any { AnyIsChosen }
{}

/// What a policy asks of the chosen gateway: by `best` no row is better; by `late` none leads it by
/// the lead; by `stable` the old choice stays while it is among the rows.
pub fn a_choice_keeps_its_policy()
    ensures best { BestIsGreatest }
    ensures late { NoneLeadsTheLate }
    ensures stable { StableStays }
{}

/// A frame for a group goes to each of at most sixteen receivers, once and in the order of their
/// addresses; for more it is no packet of its own to any.
pub fn a_group_frame_goes_to_its_receivers()
    ensures each { GroupGoesToReceivers }
    ensures flooded { GroupIsFlooded }
    ensures order { ReceiversAscend }
{}
