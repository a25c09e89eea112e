//! How each mesh that is reached is tied to a world of the table machine.

ghost use Rattle.mesh_tie.specs.AliasesSeen.{AliasesAreSeen, AliasesAreTold};
ghost use Rattle.mesh_tie.specs.TieLaws.{AlgorithmsKeep, CommitsAlwaysFit, MeshesAreTied, StepsAreMoves};

/// Each step of a mesh is, for each originator, a list of the machine's moves: a node or a link
/// that joins, what a line gives, a tick, and a frame that comes to any node at any moment.
pub fn steps_are_moves()
    ensures { StepsAreMoves }
{}

/// Each mesh that is reached is tied to a world that moves reach.
pub fn meshes_are_tied()
    ensures { MeshesAreTied }
{}

/// Every commit can be told: no node has more clients than may be, and each of them fits a record.
pub fn every_commit_can_be_told()
    ensures { CommitsAlwaysFit }
{}

/// Each algorithm keeps originator messages their originators', as is asked of an algorithm.
pub fn algorithms_keep_originators()
    ensures { AlgorithmsKeep }
{}

/// An event tells of an alias exactly where a commit of an originator has it; so where two of its
/// commits are one, an event told of one.
pub fn aliases_are_seen()
    ensures told { AliasesAreTold }
    ensures seen { AliasesAreSeen }
{}
