//! What was ever sent of an originator's tables, while no two of its commits are an alias; and what
//! was ever carried for clients, whatever the aliases.

ghost use Rattle.mesh_tie.specs.ByTable.{FramesByTable};
ghost use Rattle.mesh_tie.specs.Carried.{CarriesClients, CarriesGivenFrames, HandsOutGivenFrames, KeepsPutFacts, PicturesAreTrue, SendsPutFacts, TellsPutFacts};
ghost use Rattle.mesh_tie.specs.ShownPictures.{ReachedPicturesAreRight, RunsShowPictures};
ghost use Rattle.mesh_tie.specs.TieLaws.{AnswersCarry, MessagesAnnounce};

/// Every originator message announces the commit of its root: its byte, its sums, and its changes
/// or none.
pub fn messages_announce_their_commits()
    ensures { MessagesAnnounce }
{}

/// Every answer carries a commit of its source in full, a piece of one by its number and of as many
/// as it has, or the changes that lead to one, under that commit's byte and sums.
pub fn answers_carry_commits()
    ensures { AnswersCarry }
{}

/// Every client frame that a node sent by table is for a client that is named by the commit which
/// the last message announced that the node had accepted when it sent the frame.
pub fn frames_by_table_are_for_named_clients()
    ensures { FramesByTable }
{}

/// Every payload that a broadcast or a packet for one node ever carried is a client frame that a
/// line gave, as it is spelled, or a message of the fact store; every client frame that was put on a
/// LAN is one that a line gave. So is each that a node hands out, or that reaches the clients of a
/// LAN. The client frame that a payload is read as is from a client that records can tell. Each fact
/// that is printed for a question is one that a line put; each that a node keeps, and each that stands
/// in a frame or in a transaction, is one too, or the picture of its source at one of its rounds; one of
/// the type of pictures is the latter.
pub fn carried_frames_were_given()
    ensures given { CarriesGivenFrames }
    ensures handed_out { HandsOutGivenFrames }
    ensures clients { CarriesClients }
    ensures facts { TellsPutFacts }
    ensures kept { KeepsPutFacts }
    ensures sent { SendsPutFacts }
    ensures pictures { PicturesAreTrue }
{}

/// What nodes know of the network by pictures is right, whatever is lost, repeated, held or delivered
/// late: each fact of the type of pictures that a node keeps, that stands in a frame or in a
/// transaction is the picture of its source at one of its rounds. So it is at each line of a run.
pub fn pictures_are_of_rounds()
    ensures meshes { ReachedPicturesAreRight }
    ensures runs { RunsShowPictures }
{}
