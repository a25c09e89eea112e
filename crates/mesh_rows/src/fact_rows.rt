//! Small scenarios with the fact store, computed from the definitions alone: who answers a question
//! for facts, and what is shown of them.

ghost use Rattle.std.specs.Prelude.{◌≡◌, [], ◌∷◌, ◌++◌, codes};
ghost use Rattle.mesh_model.specs.declared.frame_choice.FrameChoice.TheVariants.{Hidden};
ghost use Rattle.mesh_rows.specs.NetRows.{Prints};
ghost use Rattle.mesh_rows.specs.ServingLines.{pair_under_v};

/// A node without a part in the store answers no question; a primary answers by its facts, and a
/// secondary that knows no primary asks nobody. What is kept is shown.
pub fn a_question_is_answered_by_the_part_of_its_node()
    ensures primary { Prints Hidden (codes "node A 02:00:00:00:00:0a" ∷ codes "alfred A get 64"
        ∷ codes "alfred A mode primary" ∷ codes "alfred A get 64" ∷ codes "alfred A put 64 1 hi"
        ∷ codes "alfred A get 64" ∷ codes "show A alf" ∷ [])
        (codes "alfred A get 64 off" ∷ codes "alfred A get 64 empty"
        ∷ codes "alfred A get 64 02:00:00:00:00:0a 1 hi"
        ∷ codes "alfred A mode=primary facts=1"
        ∷ codes "a 02:00:00:00:00:0a 64 1 local age=0 hi" ∷ []) }
    ensures secondary { Prints Hidden (codes "node A 02:00:00:00:00:0a"
        ∷ codes "alfred A put 64 1 hi" ∷ codes "alfred A mode secondary"
        ∷ codes "alfred A get 64" ∷ codes "run 7" ∷ codes "show A alf" ∷ [])
        (codes "alfred A get 64 noprimary" ∷ codes "alfred A mode=secondary facts=1"
        ∷ codes "a 02:00:00:00:00:0a 64 1 local age=7 hi" ∷ []) }
{}

/// A secondary asks a primary that announced itself, and prints its answer.
pub fn a_secondary_asks_its_primary()
    ensures { Prints Hidden (pair_under_v ++ codes "alfred B mode primary"
        ∷ codes "alfred B put 64 1 hi" ∷ codes "alfred A mode secondary" ∷ codes "run 10001"
        ∷ codes "alfred A get 64" ∷ codes "run 2" ∷ [])
        (codes "alfred A get 64 02:00:00:00:00:0b 1 hi" ∷ []) }
{}
