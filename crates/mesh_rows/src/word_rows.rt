//! What words ask for, computed from the definitions alone.

ghost use Rattle.std.specs.Prelude.{[], ◌∷◌, codes};
ghost use Rattle.mesh_model.specs.declared.frame_choice.FrameChoice.TheVariants.{Hidden, All, Client, Ogm, Route};
ghost use Rattle.mesh_model.specs.Run.CommandLine.{FromInput, FromFile, Generated};
ghost use Rattle.mesh_rows.specs.WordRows.{AreNotTaken, AskFor, AskForLoops};

/// Without words the lines come from standard input, and no link frame is printed.
pub fn no_words_ask_for_the_input()
    ensures { AskFor [] Hidden FromInput }
{}

/// The choice of frames is the next word, or stands behind a `=`.
pub fn frames_are_chosen_by_their_word()
    ensures word { AskFor (codes "--frames" ∷ codes "client" ∷ []) Client FromInput }
    ensures joined { AskFor (codes "--frames=all" ∷ []) All FromInput }
    ensures behind { AskFor (codes "x" ∷ codes "--frames" ∷ codes "ogm" ∷ []) Ogm
        (FromFile (codes "x")) }
    ensures hidden { AskFor (codes "--frames" ∷ codes "all" ∷ codes "none" ∷ []) All
        (FromFile (codes "none")) }
    ensures route { AskFor (codes "--frames" ∷ codes "route" ∷ []) Route FromInput }
{}

/// Lines of routes are asked for by a word alone.
pub fn loops_are_asked_for_by_a_word()
    ensures alone { AskForLoops (codes "--bisect" ∷ []) FromInput }
    ensures file { AskForLoops (codes "--bisect" ∷ codes "x" ∷ []) (FromFile (codes "x")) }
    ensures behind { AskForLoops (codes "x" ∷ codes "--bisect" ∷ []) (FromFile (codes "x")) }
    ensures dashes { AskFor (codes "--" ∷ codes "--bisect" ∷ []) Hidden
        (FromFile (codes "--bisect")) }
    ensures value { AreNotTaken (codes "--bisect=1" ∷ []) }
    ensures true_value { AreNotTaken (codes "--bisect=true" ∷ []) }
    ensures twice { AreNotTaken (codes "--bisect" ∷ codes "--bisect" ∷ []) }
{}

/// Beside it neither a choice of frames nor nodes are taken.
pub fn loops_have_no_frames_and_no_nodes()
    ensures frames { AreNotTaken (codes "--bisect" ∷ codes "--frames" ∷ codes "none" ∷ []) }
    ensures frames_first { AreNotTaken (codes "--frames=route" ∷ codes "--bisect" ∷ []) }
    ensures nodes { AreNotTaken (codes "--bisect" ∷ codes "--generate" ∷ codes "3" ∷ []) }
    ensures all { AreNotTaken (codes "--bisect" ∷ codes "--frames" ∷ codes "none"
        ∷ codes "--generate" ∷ codes "3" ∷ codes "x" ∷ []) }
{}

/// Another word is no choice, and neither is none, or a choice that stands twice.
pub fn other_choices_are_not_taken()
    ensures other { AreNotTaken (codes "--frames" ∷ codes "some" ∷ []) }
    ensures upper { AreNotTaken (codes "--frames=All" ∷ []) }
    ensures empty { AreNotTaken (codes "--frames" ∷ [] ∷ []) }
    ensures alone { AreNotTaken (codes "--frames" ∷ []) }
    ensures option { AreNotTaken (codes "--frames" ∷ codes "--generate" ∷ codes "3" ∷ []) }
    ensures twice { AreNotTaken
        (codes "--frames" ∷ codes "all" ∷ codes "--frames" ∷ codes "all" ∷ []) }
{}

/// A mesh of 3 to 64 nodes is generated; zeros and one `+` may stand before the number.
pub fn nodes_are_3_to_64()
    ensures least { AskFor (codes "--generate" ∷ codes "3" ∷ []) Hidden (Generated 3) }
    ensures most { AskFor (codes "--generate=64" ∷ []) Hidden (Generated 64) }
    ensures zeros { AskFor (codes "--generate" ∷ codes "007" ∷ []) Hidden (Generated 7) }
    ensures plus { AskFor (codes "--generate" ∷ codes "+3" ∷ []) Hidden (Generated 3) }
    ensures fewer { AreNotTaken (codes "--generate" ∷ codes "2" ∷ []) }
    ensures more { AreNotTaken (codes "--generate" ∷ codes "65" ∷ []) }
    ensures negative { AreNotTaken (codes "--generate=-3" ∷ []) }
    ensures letter { AreNotTaken (codes "--generate" ∷ codes "3x" ∷ []) }
    ensures empty { AreNotTaken (codes "--generate" ∷ [] ∷ []) }
{}

/// The one word that is no option's is the file: an empty one and a lone `-` too, and, behind `--`,
/// one in the form of an option.
pub fn a_file_is_the_one_other_word()
    ensures word { AskFor (codes "x" ∷ []) Hidden (FromFile (codes "x")) }
    ensures empty { AskFor ([] ∷ []) Hidden (FromFile []) }
    ensures dash { AskFor (codes "-" ∷ []) Hidden (FromFile (codes "-")) }
    ensures help { AskFor (codes "help" ∷ []) Hidden (FromFile (codes "help")) }
    ensures behind { AskFor (codes "--" ∷ codes "--frames" ∷ []) Hidden (FromFile (codes "--frames")) }
    ensures dashes { AskFor (codes "--" ∷ codes "--" ∷ []) Hidden (FromFile (codes "--")) }
    ensures end { AskFor (codes "x" ∷ codes "--" ∷ []) Hidden (FromFile (codes "x")) }
    ensures two { AreNotTaken (codes "x" ∷ codes "y" ∷ []) }
    ensures behind_two { AreNotTaken (codes "--" ∷ codes "x" ∷ codes "y" ∷ []) }
{}

/// Lines come from a file or from the generator, not from both.
pub fn a_file_and_generated_nodes_exclude_each_other()
    ensures file_last { AreNotTaken (codes "--generate" ∷ codes "3" ∷ codes "x" ∷ []) }
    ensures file_first { AreNotTaken (codes "x" ∷ codes "--generate" ∷ codes "3" ∷ []) }
    ensures frames { AskFor (codes "--frames" ∷ codes "all" ∷ codes "--generate" ∷ codes "3" ∷ [])
        All (Generated 3) }
{}

/// There is no other option, no shortened one, and none for help or a version.
pub fn other_options_are_not_taken()
    ensures help { AreNotTaken (codes "--help" ∷ []) }
    ensures short_help { AreNotTaken (codes "-h" ∷ []) }
    ensures version { AreNotTaken (codes "--version" ∷ []) }
    ensures letter { AreNotTaken (codes "-x" ∷ []) }
    ensures digit { AreNotTaken (codes "-1" ∷ []) }
    ensures shortened { AreNotTaken (codes "--fr" ∷ codes "all" ∷ []) }
    ensures file { AreNotTaken (codes "--file" ∷ codes "x" ∷ []) }
    ensures dashes { AreNotTaken (codes "---" ∷ []) }
{}
