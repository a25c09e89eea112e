//! What the text of a run says, over the first lines of any input, and any front of the text.

ghost use Rattle.mesh_lines.specs.TextLaws.{PrintedIsPlain, TextsAreLines, TextsShowAliases, TextsShowCommits, TextsShowRightFrames};

/// The text of a run is the lines of what it printed, one after the other, each ended by its only
/// newline.
pub fn texts_are_lines()
    ensures plain { PrintedIsPlain }
    ensures lines { TextsAreLines }
{}

/// A line `t ORIG held=B told=B state=ok entries=N` is that of the commit that the originator made
/// for the message that the shown node accepted last, and the commit's entries follow; unless a
/// line before it tells of an alias of the originator.
pub fn texts_show_commits()
    ensures { TextsShowCommits }
{}

/// A line of a link frame with `by=table` is of bytes that the node of that name sent then, for a
/// client that the addressed node's commit names, as the sender was told last; unless a line before
/// it tells of an alias of that node.
pub fn texts_show_right_frames()
    ensures { TextsShowRightFrames }
{}

/// Each line that begins with `alias` is that of a commit that has this alias, and each commit that
/// has one has its line: where a tick made the commit, behind the lines of the tick's ELP and before
/// those of its originator message; where a reboot did, as the only event of the scenario's line.
pub fn texts_show_aliases()
    ensures { TextsShowAliases }
{}
