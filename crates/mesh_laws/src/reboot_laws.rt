//! What holds of nodes that reboot, and of what others hear of them.

ghost use Rattle.mesh_laws.specs.LastLogLaws.{LastLogAnswers, RunsRebootOffLans};
ghost use Rattle.mesh_laws.specs.RestartLaws.{HearsInOrder, OthersAreNeither, RestartIsOfLife};

/// Whether a wild number is a restart may be asked of its life, or of all that was heard of its
/// originator: of hearings in order both say the same. Any other number is in time.
pub fn a_restart_is_of_its_life()
    ensures wild { RestartIsOfLife }
    ensures others { OthersAreNeither }
    ensures order { HearsInOrder }
{}

/// What is asked of a node is the same of its log since the last reboot, which begins with the
/// settings, where each reboot came to a node that was no gateway; and so it is in every plain run.
pub fn the_last_log_answers()
    ensures answers { LastLogAnswers }
    ensures runs { RunsRebootOffLans }
{}
