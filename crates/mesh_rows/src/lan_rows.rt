//! Small scenarios with LANs, computed from the definitions alone: which gateway claims and passes
//! what, what is printed of it, and which lines are refused.

ghost use Rattle.std.specs.Prelude.{◌≡◌, [], ◌∷◌, ◌++◌, codes};
ghost use Rattle.mesh_model.specs.declared.ending.LimitName.TheVariants.{Frames, Lans, Vlans};
ghost use Rattle.mesh_model.specs.declared.ending.Refusal.TheVariants.{Attached, NameTaken, UnknownName, WrongKind};
ghost use Rattle.mesh_model.specs.declared.ending.Stop.TheVariants.{Limit, Refused};
ghost use Rattle.mesh_model.specs.declared.frame_choice.FrameChoice.TheVariants.{All, Client, Hidden};
ghost use Rattle.mesh_rows.specs.LanLines.{full_gateway, many_lans, on_lan, one_gateway, received_line, row_line, seen_behind_a, to_all, two_gateways};
ghost use Rattle.mesh_rows.specs.NetLines.{many_nodes, many_vlans};
ghost use Rattle.mesh_rows.specs.NetRows.{with_limits, EndsAt, EndsWith, Prints};

/// The first frame of a client brings claims alone, of which the last stands at each gateway; its
/// holder passes the second.
pub fn the_last_claim_stands_at_both_gateways()
    ensures { Prints Hidden (two_gateways ++ on_lan (codes "x") ∷ codes "run 2" ∷ codes "show A cl"
        ∷ codes "show B cl" ∷ on_lan (codes "x") ∷ codes "run 1" ∷ codes "show A tl"
        ∷ codes "show B tl" ∷ [])
        (codes "cl A lan=L count=1" ∷ row_line (codes "b") (codes "0")
        ∷ codes "cl B lan=L count=1" ∷ row_line (codes "b") (codes "0")
        ∷ codes "tl A version=0 clients=0" ∷ codes "tl B version=0 clients=1"
        ∷ codes "c 02:00:00:00:01:01 - -- age=0" ∷ []) }
{}

/// The frames of it in a VLAN, byte by byte; a choice of link frames shows none of them.
pub fn frames_of_a_lan_are_shown()
    ensures all { Prints All (two_gateways
        ++ to_all (codes "L") (codes "01") (codes "7 x") ∷ codes "run 2" ∷ codes "show A cl" ∷ [])
        (codes "l1 0 L client ffffffffffff0200000001018100000788b578"
        ∷ codes "l2 1 L claim ff430500000102000000000a88b60200000001018007"
        ∷ codes "l3 1 L claim ff430500000102000000000b88b60200000001018007"
        ∷ codes "cl A lan=L count=1"
        ∷ codes "k 02:00:00:00:01:01 7 holder=02:00:00:00:00:0b age=0" ∷ []) }
    ensures client { Prints Client (two_gateways ++ on_lan (codes "x") ∷ codes "run 2" ∷ []) [] }
{}

/// A holder whose claim is 10,000 ms old claims anew before it passes a frame. At each twentieth
/// tick a gateway tells how many claims it holds.
pub fn a_claim_is_made_anew()
    ensures { Prints All (one_gateway ++ on_lan (codes "x") ∷ codes "run 10001"
        ∷ on_lan (codes "y") ∷ codes "run 2" ∷ codes "show A cl" ∷ [])
        (codes "l1 0 L client ffffffffffff02000000010188b578"
        ∷ codes "l2 1 L claim ff430500000102000000000a88b60200000001010000"
        ∷ codes "l3 10000 L announce ff430502000102000000000a88b600000001"
        ∷ codes "l4 10001 L client ffffffffffff02000000010188b579"
        ∷ codes "l5 10002 L claim ff430500000102000000000a88b60200000001010000"
        ∷ codes "cl A lan=L count=1" ∷ row_line (codes "a") (codes "0") ∷ []) }
{}

/// The claim is put before the sighting's limit is looked at: where no frame may be put any more,
/// that is the limit that is passed; else it is that on VLANs.
pub fn a_claim_comes_before_the_sighting()
    ensures frames { EndsWith (with_limits 4 1000) Hidden
        (codes "node A 02:00:00:00:00:0a" ∷ many_vlans 16 ++ full_gateway) [] 22 (Limit Frames) }
    ensures vlans { EndsWith (with_limits 5 1000) Hidden
        (codes "node A 02:00:00:00:00:0a" ∷ many_vlans 16 ++ full_gateway) [] 22 (Limit Vlans) }
{}

/// A frame of a client on the LAN goes over the mesh from the holder alone, and the other gateway
/// doesn't put it back; it goes to no client that is on the LAN, and is lost where none is known.
pub fn a_frame_of_a_lan_does_not_come_back()
    ensures once { Prints Client (codes "node A 02:00:00:00:00:0a"
        ∷ codes "node B 02:00:00:00:00:0b" ∷ codes "link A B" ∷ codes "link B A" ∷ codes "lan L A B" ∷ on_lan (codes "x")
        ∷ codes "run 2" ∷ on_lan (codes "y") ∷ codes "run 10" ∷ [])
        (codes "f1 3 B>A bcast 010f32000000000102000000000bffffffffffff02000000010188b579"
        ∷ codes "f2 4 A>B bcast 010f31000000000102000000000bffffffffffff02000000010188b579" ∷ []) }
    ensures stays { Prints Hidden (one_gateway ++ on_lan (codes "x") ∷ codes "run 2"
        ∷ codes "frame L 02:00:00:00:01:01 02:00:00:00:01:01 - y" ∷ codes "run 1" ∷ []) [] }
    ensures lost { Prints Hidden (one_gateway ++ on_lan (codes "x") ∷ codes "run 2"
        ∷ codes "frame L 02:00:00:00:01:01 02:00:00:00:01:09 - y" ∷ codes "run 1" ∷ [])
        (codes "lost 3 A - 02:00:00:00:01:01 02:00:00:00:01:09 unknown" ∷ []) }
{}

/// A broadcast from the mesh is first held back, then reaches the LAN; a client frame to a client
/// of the LAN reaches it at once, behind a claim.
pub fn frames_from_the_mesh_reach_the_lan()
    ensures broadcast { Prints Hidden (codes "node A 02:00:00:00:00:0a"
        ∷ codes "node B 02:00:00:00:00:0b" ∷ codes "link B A" ∷ codes "lan L A"
        ∷ to_all (codes "B") (codes "01") (codes "- x") ∷ codes "run 3"
        ∷ to_all (codes "B") (codes "01") (codes "- y") ∷ codes "run 2" ∷ [])
        (received_line (codes "5 L") (codes "y") ∷ []) }
    ensures unicast { Prints Hidden (seen_behind_a
        ++ codes "frame B 02:00:00:00:01:03 02:00:00:00:01:01 - q" ∷ codes "run 2"
        ∷ codes "show A cl" ∷ [])
        (received_line (codes "4 B") (codes "y")
        ∷ codes "recv 1104 L - 02:00:00:00:01:03 02:00:00:00:01:01 q"
        ∷ codes "cl A lan=L count=2" ∷ row_line (codes "a") (codes "1102")
        ∷ codes "k 02:00:00:00:01:03 - holder=02:00:00:00:00:0a age=0" ∷ []) }
{}

/// A gateway gives up a client that it holds and that roamed away; one that is gone from a LAN is
/// gone from each gateway.
pub fn a_client_leaves_its_lan()
    ensures roamed { Prints Hidden (seen_behind_a ++ codes "show A cl"
        ∷ to_all (codes "B") (codes "01") (codes "- z") ∷ codes "run 2" ∷ codes "show A cl" ∷ [])
        (received_line (codes "4 B") (codes "y")
        ∷ codes "cl A lan=L count=1" ∷ row_line (codes "a") (codes "1100")
        ∷ received_line (codes "1104 L") (codes "z") ∷ codes "cl A lan=L count=0" ∷ []) }
    ensures gone { Prints Hidden (two_gateways ++ on_lan (codes "x") ∷ codes "run 2"
        ∷ on_lan (codes "y") ∷ codes "run 1" ∷ codes "gone L 02:00:00:00:01:01 -"
        ∷ codes "show B tl" ∷ []) (codes "tl B version=0 clients=0" ∷ []) }
{}

/// A node that is no gateway has no claims. A gateway is no place, and isn't made one again; a LAN
/// is no node, and its name is taken. Names are looked at one by one, in the order of the line.
pub fn lines_on_lans_are_refused()
    ensures none { Prints Hidden (codes "node A 02:00:00:00:00:0a" ∷ codes "show A cl" ∷ [])
        (codes "cl A lan=- count=0" ∷ []) }
    ensures place { EndsAt Hidden (one_gateway
        ++ codes "frame A 02:00:00:00:01:01 ff:ff:ff:ff:ff:ff - x" ∷ []) [] 3 (Refused Attached) }
    ensures gone { EndsAt Hidden (one_gateway ++ codes "gone A 02:00:00:00:01:01 -" ∷ []) [] 3
        (Refused Attached) }
    ensures again { EndsAt Hidden (one_gateway ++ codes "lan M A" ∷ []) [] 3 (Refused Attached) }
    ensures twice { EndsAt Hidden (codes "node A 02:00:00:00:00:0a" ∷ codes "lan L A A" ∷ []) [] 2
        (Refused Attached) }
    ensures kind { EndsAt Hidden (one_gateway ++ codes "show L cl" ∷ []) [] 3
        (Refused WrongKind) }
    ensures link { EndsAt Hidden (one_gateway ++ codes "link L M" ∷ []) [] 3 (Refused WrongKind) }
    ensures link_back { EndsAt Hidden (one_gateway ++ codes "link M L" ∷ []) [] 3
        (Refused UnknownName) }
    ensures gateway { EndsAt Hidden (one_gateway ++ codes "lan M L" ∷ []) [] 3
        (Refused WrongKind) }
    ensures itself { EndsAt Hidden (codes "lan L L" ∷ []) [] 1 (Refused UnknownName) }
    ensures node { EndsAt Hidden (codes "node A 02:00:00:00:00:0a" ∷ codes "lan A A" ∷ []) [] 2
        (Refused NameTaken) }
    ensures lan { EndsAt Hidden (one_gateway ++ codes "node L 02:00:00:00:00:0b" ∷ []) [] 3
        (Refused NameTaken) }
    ensures lans { EndsAt Hidden (many_nodes 17 ++ many_lans 17) [] 34 (Limit Lans) }
{}
