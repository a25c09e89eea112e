//! What is told of routes that are watched, computed from the definitions alone.

ghost use Rattle.std.specs.Prelude.{◌≡◌, [], ◌∷◌, ◌++◌, codes, None, Some};
ghost use Rattle.mesh_model.specs.declared.frame_choice.FrameChoice.TheVariants.{Route};
ghost use Rattle.mesh_model.specs.declared.happening.Class.TheVariants.{LanDelivery, NodeTick};
ghost use Rattle.mesh_model.specs.Net.Watching.{lines_due, takers_of};
ghost use Rattle.mesh_rows.specs.LoopRows.{node_a, node_b, node_c, node_d};
ghost use Rattle.mesh_rows.specs.NetLines.{duo};
ghost use Rattle.mesh_rows.specs.NetRows.{Prints};
ghost use Rattle.mesh_rows.specs.WatchRows.{lan_mesh, route_to, row_to};

/// Each of two nodes has its route as it hears the other's second message, in the order of the
/// frames, and no link frame is printed.
pub fn two_nodes_tell_their_routes()
    ensures { Prints Route (duo ++ codes "run 2001" ∷ [])
        (codes "route 2001 02:00:00:00:00:0b 02:00:00:00:00:0a 02:00:00:00:00:0a"
        ∷ codes "route 2001 02:00:00:00:00:0a 02:00:00:00:00:0b 02:00:00:00:00:0b" ∷ []) }
{}

/// A route that a reboot ends is told at the node's next happening, and what stays isn't told.
pub fn a_lost_route_is_told_at_the_next_happening()
    ensures { Prints Route
        (duo ++ codes "run 2001" ∷ codes "reboot A" ∷ codes "run 500" ∷ [])
        (codes "route 2001 02:00:00:00:00:0b 02:00:00:00:00:0a 02:00:00:00:00:0a"
        ∷ codes "route 2001 02:00:00:00:00:0a 02:00:00:00:00:0b 02:00:00:00:00:0b"
        ∷ codes "route 2002 02:00:00:00:00:0a 02:00:00:00:00:0b -" ∷ []) }
{}

/// A line is told exactly where the next node isn't the one last told, by the originators'
/// addresses; before the first line there is none.
pub fn a_line_is_told_where_the_next_node_differs()
    ensures first { lines_due 7 node_a (row_to node_b None ∷ row_to node_d (Some node_b) ∷ []) []
        ≡ route_to 7 node_d (Some node_b) ∷ [] }
    ensures same { lines_due 7 node_a (row_to node_d (Some node_b) ∷ [])
        (route_to 5 node_d (Some node_b) ∷ []) ≡ [] }
    ensures other { lines_due 7 node_a (row_to node_d (Some node_c) ∷ [])
        (route_to 5 node_d (Some node_b) ∷ []) ≡ route_to 7 node_d (Some node_c) ∷ [] }
    ensures back { lines_due 7 node_a (row_to node_d (Some node_b) ∷ [])
        (route_to 6 node_d (Some node_c) ∷ route_to 5 node_d (Some node_b) ∷ [])
        ≡ route_to 7 node_d (Some node_b) ∷ [] }
    ensures lost { lines_due 7 node_a [] (route_to 5 node_d (Some node_b) ∷ [])
        ≡ route_to 7 node_d None ∷ [] }
    ensures gone { lines_due 7 node_a (row_to node_d None ∷ [])
        (route_to 6 node_d None ∷ route_to 5 node_d (Some node_b) ∷ []) ≡ [] }
    ensures order { lines_due 7 node_a (row_to node_c (Some node_b) ∷ [])
        (route_to 5 node_d (Some node_b) ∷ route_to 4 node_b (Some node_b) ∷ [])
        ≡ route_to 7 node_b None ∷ route_to 7 node_c (Some node_b)
        ∷ route_to 7 node_d None ∷ [] }
    ensures elsewhere { lines_due 7 node_a []
        (record { moment = 5; node = node_b; orig = node_d; next = Some node_c } ∷ []) ≡ [] }
{}

/// All gateways of a LAN take its frame, also the one that put it; a tick is taken by its node.
pub fn gateways_take_what_comes_on_their_lan()
    ensures lan { takers_of LanDelivery 0 lan_mesh ≡ 0 ∷ 2 ∷ [] }
    ensures none { takers_of LanDelivery 1 lan_mesh ≡ [] }
    ensures tick { takers_of NodeTick 3 lan_mesh ≡ 3 ∷ [] }
{}
