//! Loops of routes and what is reported of them, computed from the definitions alone.

ghost use Rattle.std.specs.Prelude.{◌≡◌, [], ◌∷◌, codes, None, Some};
ghost use Rattle.mesh_model.specs.Loops.Reports.{gone_from, new_in, report_text};
ghost use Rattle.mesh_model.specs.Loops.Routes.{loop_from, loops_of, next_of};
ghost use Rattle.mesh_rows.specs.LoopRows.{loop_of, node_a, node_b, node_c, node_d, route};
ghost use Rattle.mesh_rows.specs.Rows.{lines};

/// Two nodes that name one another are a loop, which is gone when one of them has another route.
pub fn two_nodes_loop_and_part()
    ensures before { loops_of (route 1 node_a (Some node_b) ∷ []) ≡ [] }
    ensures looped { loops_of (route 1 node_b (Some node_a) ∷ route 1 node_a (Some node_b) ∷ [])
        ≡ loop_of (node_a ∷ node_b ∷ []) ∷ [] }
    ensures parted { loops_of (route 2 node_b (Some node_d) ∷ route 1 node_b (Some node_a)
        ∷ route 1 node_a (Some node_b) ∷ []) ≡ [] }
    ensures told { report_text 1 [] (loop_of (node_a ∷ node_b ∷ []) ∷ []) ≡ lines
        (codes "loop 1 02:00:00:00:00:0d 02:00:00:00:00:0a 02:00:00:00:00:0b" ∷ []) }
    ensures cleared { report_text 2 (loop_of (node_a ∷ node_b ∷ []) ∷ []) [] ≡ lines
        (codes "clear 2 02:00:00:00:00:0d 02:00:00:00:00:0a" ∷ []) }
{}

/// A node that names itself is a loop, and so is one with the originator among its nodes.
pub fn a_loop_may_have_one_node_or_its_originator()
    ensures one { loops_of (route 1 node_a (Some node_a) ∷ [])
        ≡ loop_of (node_a ∷ []) ∷ [] }
    ensures originator { loops_of (route 1 node_d (Some node_a) ∷ route 1 node_a (Some node_d) ∷ [])
        ≡ loop_of (node_a ∷ node_d ∷ []) ∷ [] }
    ensures lost { loops_of (route 2 node_a None ∷ route 1 node_a (Some node_a) ∷ []) ≡ [] }
{}

/// A loop with another node is another loop.
pub fn a_loop_that_changes_its_nodes_is_gone_and_new()
    ensures looped { loops_of (route 2 node_c (Some node_a) ∷ route 2 node_b (Some node_c)
        ∷ route 1 node_b (Some node_a) ∷ route 1 node_a (Some node_b) ∷ [])
        ≡ loop_of (node_a ∷ node_b ∷ node_c ∷ []) ∷ [] }
    ensures told { report_text 2 (loop_of (node_a ∷ node_b ∷ []) ∷ [])
        (loop_of (node_a ∷ node_b ∷ node_c ∷ []) ∷ []) ≡ lines
        (codes "clear 2 02:00:00:00:00:0d 02:00:00:00:00:0a"
        ∷ codes "loop 2 02:00:00:00:00:0d 02:00:00:00:00:0a 02:00:00:00:00:0b 02:00:00:00:00:0c"
        ∷ []) }
    ensures gone { gone_from (loop_of (node_a ∷ node_b ∷ []) ∷ loop_of (node_c ∷ []) ∷ [])
        (loop_of (node_c ∷ []) ∷ []) ≡ loop_of (node_a ∷ node_b ∷ []) ∷ [] }
    ensures fresh { new_in (loop_of (node_c ∷ []) ∷ [])
        (loop_of (node_a ∷ node_b ∷ []) ∷ loop_of (node_c ∷ []) ∷ [])
        ≡ loop_of (node_a ∷ node_b ∷ []) ∷ [] }
{}

/// Loops stand by their originator, then by their least node, and what leads into a loop is none of
/// its nodes.
pub fn loops_stand_in_order()
    ensures into { loops_of (route 1 node_a (Some node_c) ∷ route 1 node_c (Some node_b)
        ∷ route 1 node_b (Some node_c) ∷ []) ≡ loop_of (node_b ∷ node_c ∷ []) ∷ [] }
    ensures nodes { loops_of (route 1 node_b (Some node_b) ∷ route 1 node_a (Some node_a) ∷ [])
        ≡ loop_of (node_a ∷ []) ∷ loop_of (node_b ∷ []) ∷ [] }
    ensures originators { loops_of (route 1 node_a (Some node_a)
        ∷ record { moment = 1; node = node_b; orig = node_c; next = Some node_b } ∷ [])
        ≡ record { orig = node_c; nodes = node_b ∷ [] } ∷ loop_of (node_a ∷ []) ∷ [] }
    ensures walk { loop_from (next_of (route 1 node_a (Some node_c) ∷ route 1 node_c (Some node_b)
        ∷ route 1 node_b (Some node_c) ∷ []) node_d) 3 node_a ≡ None }
{}
