//! Small scenarios with gateways and groups, computed from the definitions alone: what a node
//! offers, which gateway is chosen, and who gets a frame of a group.

ghost use Rattle.std.specs.Prelude.{◌≡◌, [], ◌∷◌, ◌++◌, codes};
ghost use Rattle.mesh_model.specs.declared.frame_choice.FrameChoice.TheVariants.{Client, Hidden, Ogm};
ghost use Rattle.mesh_rows.specs.NetRows.{Prints};
ghost use Rattle.mesh_rows.specs.ServingLines.{pair_under_v, two_gateways_under_v};

/// A gateway tells its throughputs before its table, and a node its multicast flags behind it; one
/// that takes no part in the ARP table doesn't tell of it.
pub fn a_node_tells_what_it_offers()
    ensures { Prints Ogm (codes "node A 02:00:00:00:00:0a" ∷ codes "node B 02:00:00:00:00:0b"
        ∷ codes "link A B" ∷ codes "set A gw server 100 20" ∷ codes "set A mcast 5"
        ∷ codes "set A dat off" ∷ codes "run 1000" ∷ [])
        ((codes "f1 1000 A>B iv_ogm 000f32000000000102000000000a02000000000a00ff001c"
        ++ codes "01010008000000640000001404010004010000000602000405000000") ∷ []) }
{}

/// A call for a gateway goes to the chosen one, and to all nodes where none is chosen. What is
/// known of gateways is shown, and who tells flags.
pub fn a_call_goes_to_the_chosen_gateway()
    ensures called { Prints Client (pair_under_v ++ codes "set B gw server 10 1"
        ∷ codes "set A gw client best" ∷ codes "run 2000"
        ∷ codes "dhcp A 02:00:00:00:01:01 - x" ∷ codes "run 1" ∷ [])
        (codes "f15 2000 A>B unicast by=gw 400f320002000000000bffffffffffff02000000010188b578"
        ∷ codes "recv 2001 B - 02:00:00:00:01:01 ff:ff:ff:ff:ff:ff x" ∷ []) }
    ensures to_all { Prints Client (pair_under_v ++ codes "dhcp A 02:00:00:00:01:01 - x" ∷ [])
        (codes "f1 0 A>B bcast 010f32000000000102000000000affffffffffff02000000010188b578" ∷ []) }
    ensures shown { Prints Hidden (pair_under_v ++ codes "set B gw server 10 1"
        ∷ codes "set A gw client best" ∷ codes "run 2000" ∷ codes "show A gw"
        ∷ codes "set A gw server 1 2" ∷ codes "show A gw" ∷ [])
        (codes "gw A mode=client chosen=02:00:00:00:00:0b"
        ∷ codes "g 02:00:00:00:00:0b down=10 up=1 metric=100"
        ∷ codes "gw A mode=server chosen=-"
        ∷ codes "g 02:00:00:00:00:0b down=10 up=1 metric=100" ∷ []) }
    ensures alone { Prints Hidden (codes "node A 02:00:00:00:00:0a"
        ∷ codes "dhcp A 02:00:00:00:01:01 - x" ∷ codes "show A gw" ∷ [])
        (codes "gw A mode=off chosen=-" ∷ []) }
{}

/// By `late 20` the old choice stands against one whose metric is 19 above its own, and falls to
/// one whose metric is 20 above.
pub fn a_late_choice_stays()
    ensures stays { Prints Hidden (two_gateways_under_v (codes "236") ++ codes "run 2001"
        ∷ codes "show A gw" ∷ [])
        (codes "gw A mode=client chosen=02:00:00:00:00:0b"
        ∷ codes "g 02:00:00:00:00:0b down=10 up=1 metric=236"
        ∷ codes "g 02:00:00:00:00:0c down=20 up=2 metric=255" ∷ []) }
    ensures falls { Prints Hidden (two_gateways_under_v (codes "235") ++ codes "run 2001"
        ∷ codes "show A gw" ∷ [])
        (codes "gw A mode=client chosen=02:00:00:00:00:0c"
        ∷ codes "g 02:00:00:00:00:0b down=10 up=1 metric=235"
        ∷ codes "g 02:00:00:00:00:0c down=20 up=2 metric=255" ∷ []) }
{}

/// A frame of a group goes to the node whose table names the group, and to one whose flags want it;
/// it goes nowhere without either. It is handed out where the group is joined.
pub fn a_group_goes_to_its_receivers()
    ensures named { Prints Client (pair_under_v ++ codes "join B 01:00:5e:01:00:05 -"
        ∷ codes "run 1003" ∷ codes "frame A 02:00:00:00:01:01 01:00:5e:01:00:05 - x"
        ∷ codes "run 1" ∷ codes "show B mc" ∷ [])
        (codes "f11 1003 A>B unicast by=mc 400f320102000000000b01005e01000502000000010188b578"
        ∷ codes "recv 1004 B - 02:00:00:00:01:01 01:00:5e:01:00:05 x"
        ∷ codes "mc B count=1" ∷ codes "j 01:00:5e:01:00:05 -" ∷ []) }
    ensures wanted { Prints Client (pair_under_v ++ codes "set B mcast 2" ∷ codes "run 1001"
        ∷ codes "frame A 02:00:00:00:01:01 01:00:5e:01:00:05 - x"
        ∷ codes "frame A 02:00:00:00:01:01 33:33:00:00:00:02 - x" ∷ codes "show A mc" ∷ [])
        (codes "f9 1001 A>B unicast by=mc 400f320002000000000b01005e01000502000000010188b578"
        ∷ codes "mc A count=1" ∷ codes "m 02:00:00:00:00:0b flags=02" ∷ []) }
    ensures here { Prints Hidden (codes "node A 02:00:00:00:00:0a"
        ∷ codes "join A 01:00:5e:01:00:05 7"
        ∷ codes "frame A 02:00:00:00:01:01 01:00:5e:01:00:05 7 x"
        ∷ codes "frame A 02:00:00:00:01:01 01:00:5e:01:00:05 - y" ∷ [])
        (codes "recv 0 A 7 02:00:00:00:01:01 01:00:5e:01:00:05 x" ∷ []) }
{}
