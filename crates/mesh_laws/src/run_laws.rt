//! What holds of every plain run.

ghost use Rattle.mesh_laws.specs.RunLaws.{HaltStays, LinesOneAfterAnother, OutputGrows};

/// Carrying out an input's lines one after another is the plain run of the whole.
pub fn lines_run_one_after_another()
    ensures { LinesOneAfterAnother }
{}

/// A line adds to the output and takes nothing away.
pub fn output_grows()
    ensures { OutputGrows }
{}

/// A run that halted stays as it is.
pub fn a_halt_stays()
    ensures { HaltStays }
{}
