//! The lines that are generated, and a summary, computed from the definitions alone.

ghost use Rattle.std.specs.Prelude.{◌≡◌, [], ◌∷◌, ◌++◌, codes};
ghost use Rattle.mesh_model.specs.Run.Generated.{node_lines, received_lines, ring_lines, summary_line, traffic_lines};
ghost use Rattle.mesh_rows.specs.Rows.{lines};

/// Three nodes stand in a ring, each linked with the next and back.
pub fn three_nodes_stand_in_a_ring()
    ensures nodes { node_lines 3 ≡ lines (codes "node n0 02:00:00:00:00:00"
        ∷ codes "node n1 02:00:00:00:00:01" ∷ codes "node n2 02:00:00:00:00:02" ∷ []) }
    ensures links { ring_lines 3 3 ≡ lines (codes "link n0 n1 pattern=.........x"
        ∷ codes "link n1 n0 pattern=.........x" ∷ codes "link n1 n2 pattern=.........x"
        ∷ codes "link n2 n1 pattern=.........x" ∷ codes "link n2 n0 pattern=.........x"
        ∷ codes "link n0 n2 pattern=.........x" ∷ []) }
{}

/// The first frames among three nodes, and among 64.
pub fn a_client_and_then_a_node_are_drawn()
    ensures few { traffic_lines 3 2
        ≡ lines (codes "frame n0 02:00:00:00:01:0b ff:ff:ff:ff:ff:ff - g1" ∷ codes "run 1000"
        ∷ codes "frame n2 02:00:00:00:01:09 ff:ff:ff:ff:ff:ff - g2" ∷ codes "run 1000" ∷ []) }
    ensures many { traffic_lines 64 1
        ≡ lines (codes "frame n2 02:00:00:00:01:93 ff:ff:ff:ff:ff:ff - g1" ∷ codes "run 1000"
        ∷ []) }
{}

/// The lines that begin with `recv` and a space are counted.
pub fn lines_of_received_frames_are_counted()
    ensures { received_lines (lines (codes "recv 0 A - 1" ∷ codes "f1 recv " ∷ codes "recv"
        ∷ codes "recv 2" ∷ [])) ≡ 2 }
{}

/// The counts stand in one line, the pairs of nodes behind them.
pub fn a_summary_is_one_line()
    ensures { summary_line 8 6950 375 74 56
        ≡ lines (codes "generated nodes=8 frames=6950 recv=375 commits=74 ok=56 of=56" ∷ []) }
{}
