//! What holds of the cuts of a node.

ghost use Rattle.mesh_laws.specs.CutLaws.{CutsAreNumbered, NothingIsCut, PutsAreOfActs};

/// A node that lets all packets go whole puts its whole acts.
pub fn nothing_is_cut()
    ensures { NothingIsCut }
{}

/// What a node puts are acts that it had to put, or fragments of its cuts.
pub fn puts_are_of_acts()
    ensures { PutsAreOfActs }
{}

/// The cuts of a node have the numbers from 1 on, in order.
pub fn cuts_are_numbered()
    ensures { CutsAreNumbered }
{}
