//! What was ever cut, and what is put together, whatever becomes of fragments on the way.

ghost use Rattle.mesh_tie.specs.CutPackets.{CutsAreKnownByNumber, FragmentsAreCut, NotesWholes, PutTogetherWasCut, RunsPutCutsTogether};

/// Every fragment that was ever sent is a piece of a cut that its originator made under its number,
/// of a packet of its length; and two cuts of a node with one number are one.
pub fn fragments_were_cut()
    ensures cut { FragmentsAreCut }
    ensures once { CutsAreKnownByNumber }
{}

/// Every packet that a node puts together, whatever is lost, repeated, held or delivered late, is
/// one that the originator of its fragments cut under their number. So it is in a run of any lines.
/// And each packet that a fragment makes whole, as its node takes a link frame, is put together so.
pub fn packets_put_together_were_cut()
    ensures meshes { PutTogetherWasCut }
    ensures runs { RunsPutCutsTogether }
    ensures noted { NotesWholes }
{}
