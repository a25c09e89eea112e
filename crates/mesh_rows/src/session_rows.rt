//! Small scenarios with pings and traceroutes, computed from the definitions alone.

ghost use Rattle.std.specs.Prelude.{[], ◌∷◌, ◌++◌, codes};
ghost use Rattle.mesh_model.specs.declared.ending.Refusal.TheVariants.{SameNode, UnknownName};
ghost use Rattle.mesh_model.specs.declared.ending.Stop.TheVariants.{Refused};
ghost use Rattle.mesh_model.specs.declared.frame_choice.FrameChoice.TheVariants.{Hidden};
ghost use Rattle.mesh_rows.specs.NetLines.{duo};
ghost use Rattle.mesh_rows.specs.NetRows.{EndsAt, Prints};

/// A ping without a route is told of at once, and uses up its number; one with a route is answered.
pub fn a_ping_is_answered()
    ensures { Prints Hidden
        (duo ++ codes "ping A B" ∷ codes "run 3000" ∷ codes "ping A B" ∷ codes "run 2" ∷ [])
        (codes "ping A B seq=1 noroute" ∷ codes "ping A B seq=2 reply ttl=50 rtt=2" ∷ []) }
{}

/// In a chain a traceroute goes on hop by hop; the answer to a ping has one hop less.
pub fn a_traceroute_goes_hop_by_hop()
    ensures { Prints Hidden
        (codes "node A 02:00:00:00:00:0a" ∷ codes "node B 02:00:00:00:00:0b"
        ∷ codes "node C 02:00:00:00:00:0c" ∷ codes "link A B" ∷ codes "link B A"
        ∷ codes "link B C" ∷ codes "link C B" ∷ codes "run 4000" ∷ codes "ping A C"
        ∷ codes "traceroute A C" ∷ codes "run 100" ∷ [])
        (codes "trace A C hop=1 B rtt=2" ∷ codes "ping A C seq=1 reply ttl=49 rtt=4"
        ∷ codes "trace A C hop=2 C rtt=4 end" ∷ []) }
{}

/// A session is one of two nodes that stand.
pub fn a_session_is_of_two_nodes()
    ensures same { EndsAt Hidden (duo ++ codes "ping A A" ∷ []) [] 5 (Refused SameNode) }
    ensures trace { EndsAt Hidden (duo ++ codes "traceroute B B" ∷ []) [] 5 (Refused SameNode) }
    ensures unknown { EndsAt Hidden (duo ++ codes "ping X X" ∷ []) [] 5 (Refused UnknownName) }
{}
