//! Laws of fragments, each proved as the contract of a function that does nothing.

ghost use Rattle.mesh_frag.specs.Laws.{CutsComeBack, OnlyWhole};

/// The last fragment of a cut that was missing makes the packet whole, in whatever order and however
/// often the others came.
pub fn cuts_come_back()
    ensures { CutsComeBack }
{}

/// What the fragments of one cut make whole is the packet that was cut.
pub fn only_the_packet_becomes_whole()
    ensures { OnlyWhole }
{}
