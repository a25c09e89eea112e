//! Small scenarios with pictures, computed from the definitions alone: when a node puts its picture,
//! and what is shown of the network.

ghost use Rattle.std.specs.Prelude.{◌≡◌, [], ◌∷◌, codes, true};
ghost use Rattle.mesh_model.specs.declared.ending.Refusal.TheVariants.{MissingWord, OutOfRange};
ghost use Rattle.mesh_model.specs.declared.frame_choice.FrameChoice.TheVariants.{Hidden};
ghost use Rattle.mesh_model.specs.declared.line_form.Command.TheVariants.{Show, Vis};
ghost use Rattle.mesh_model.specs.declared.line_form.Table.TheVariants.{Pictures};
ghost use Rattle.mesh_rows.specs.LineRows.{Gives, IsRefusedFor};
ghost use Rattle.mesh_rows.specs.NetRows.{Prints};

/// Whether a node puts its picture is a word of its own; the type of a fact that a line puts is 64
/// at least.
pub fn pictures_are_set_by_a_word()
    ensures on { Gives (codes "set A vis on") (Vis (codes "A") true) }
    ensures shown { Gives (codes "show A vis") (Show (codes "A") Pictures) }
    ensures missing { IsRefusedFor (codes "set A vis") MissingWord }
    ensures number { IsRefusedFor (codes "set A vis 1") OutOfRange }
    ensures other { IsRefusedFor (codes "show A viz") OutOfRange }
    ensures put { IsRefusedFor (codes "alfred A put 1 1 x") OutOfRange }
{}

/// A node puts its picture at a round, with its last commit, where it has a part in the store; the
/// bytes are shown in hex digits.
pub fn a_node_puts_its_picture_at_a_round()
    ensures nothing { Prints Hidden (codes "node A 02:00:00:00:00:0a" ∷ codes "show A vis" ∷ [])
        (codes "vis A []" ∷ []) }
    ensures alone { Prints Hidden (codes "node A 02:00:00:00:00:0a"
        ∷ codes "alfred A mode primary" ∷ codes "set A vis on"
        ∷ codes "frame A 02:00:00:00:01:01 ff:ff:ff:ff:ff:ff - x" ∷ codes "run 9999"
        ∷ codes "show A vis" ∷ codes "run 1" ∷ codes "show A vis" ∷ codes "show A alf" ∷ [])
        (codes "vis A []"
        ∷ codes "vis A [{\"clients\":[\"02:00:00:00:01:01/-\"],\"neighbors\":[],\"node\":\"02:00:00:00:00:0a\"}]"
        ∷ codes "alfred A mode=primary facts=1"
        ∷ codes "a 02:00:00:00:00:0a 1 1 local age=0 00010200000001010000" ∷ []) }
    ensures no_part { Prints Hidden (codes "node A 02:00:00:00:00:0a" ∷ codes "set A vis on"
        ∷ codes "run 10000" ∷ codes "show A vis" ∷ [])
        (codes "vis A []" ∷ []) }
    ensures off { Prints Hidden (codes "node A 02:00:00:00:00:0a"
        ∷ codes "alfred A mode secondary" ∷ codes "set A vis on" ∷ codes "set A vis off"
        ∷ codes "run 10000" ∷ codes "show A vis" ∷ [])
        (codes "vis A []" ∷ []) }
{}
