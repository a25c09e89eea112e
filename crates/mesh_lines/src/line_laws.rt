//! What a line tells: its end, its source, and its fields.

ghost use Rattle.mesh_lines.specs.LineFields.{AliasLinesTellFields, EntryLinesTellFields, FrameLinesTellFields, OkLinesTellFields};
ghost use Rattle.mesh_lines.specs.LineSources.{AliasesHaveOneSource, FramesHaveOneSource, OriginatorsHaveOneSource};
ghost use Rattle.mesh_lines.specs.PlainLines.{InputLinesArePlain, ReadIsPlain};

/// What each line of an input says has no newline, and so the names that it gives are words and its
/// text has none.
pub fn lines_give_plain_words()
    ensures lines { InputLinesArePlain }
    ensures read { ReadIsPlain }
{}

/// A line that begins as an originator's is one of a table that was printed, and its entries' lines
/// follow; one that begins as a link frame's or an alias' is that of such an event.
pub fn lines_have_one_source()
    ensures originators { OriginatorsHaveOneSource }
    ensures frames { FramesHaveOneSource }
    ensures aliases { AliasesHaveOneSource }
{}

/// Lines of one form that are the same have the same fields.
pub fn lines_tell_their_fields()
    ensures originators { OkLinesTellFields }
    ensures entries { EntryLinesTellFields }
    ensures aliases { AliasLinesTellFields }
    ensures frames { FrameLinesTellFields }
{}
