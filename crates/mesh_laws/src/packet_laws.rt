//! What holds of the packet that bytes begin with, of link frames, and of the text of bytes.

ghost use Rattle.mesh_laws.specs.PacketLaws.{PacketsAreFound, FoundPacketsAreRight, RefusalsAreFirst, FramesGoOn, BadIsLast};

/// A packet that bytes begin with is computed from them.
pub fn packets_are_found()
    ensures { PacketsAreFound }
{}

/// A packet that is computed from bytes is one that they begin with.
pub fn found_packets_are_right()
    ensures { FoundPacketsAreRight }
{}

/// The computed refusal is the first cause, and where one is the first cause it is computed.
pub fn refusals_are_first()
    ensures { RefusalsAreFirst }
{}

/// A link frame is its first packet and what follows it: the bound on packets is never met.
pub fn frames_go_on()
    ensures { FramesGoOn }
{}

/// Of the lines that `decode` prints at most one is a `bad` line, and it is the last.
pub fn a_bad_line_is_the_last()
    ensures { BadIsLast }
{}
