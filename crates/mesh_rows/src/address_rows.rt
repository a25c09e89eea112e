//! Small scenarios with questions for IP addresses, computed from the definitions alone: what is
//! known, which nodes are asked, and what they answer.

ghost use Rattle.std.specs.Prelude.{◌≡◌, [], ◌∷◌, ◌++◌, codes};
ghost use Rattle.mesh_model.specs.declared.frame_choice.FrameChoice.TheVariants.{Client, Hidden};
ghost use Rattle.mesh_rows.specs.NetRows.{Prints};
ghost use Rattle.mesh_rows.specs.ServingLines.{pair_under_v};

/// A node alone answers from what it learned; one that takes no part answers nothing.
pub fn a_node_answers_what_it_knows()
    ensures known { Prints Hidden (codes "node A 02:00:00:00:00:0a"
        ∷ codes "arp A 02:00:00:00:01:01 10.0.0.1 10.0.0.2 -"
        ∷ codes "arp A 02:00:00:00:01:02 10.0.0.2 10.0.0.1 -" ∷ codes "show A dat" ∷ [])
        (codes "arp A 10.0.0.2 none" ∷ codes "arp A 10.0.0.1 is 02:00:00:00:01:01 cache"
        ∷ codes "dat A count=2" ∷ codes "d 10.0.0.1 - 02:00:00:00:01:01 age=0"
        ∷ codes "d 10.0.0.2 - 02:00:00:00:01:02 age=0" ∷ []) }
    ensures off { Prints Hidden (codes "node A 02:00:00:00:00:0a" ∷ codes "set A dat off"
        ∷ codes "arp A 02:00:00:00:01:01 010.0.0.1 010.0.0.2 -" ∷ codes "show A dat" ∷ [])
        (codes "arp A 10.0.0.2 off" ∷ codes "dat A count=0" ∷ []) }
{}

/// A pair is put at the other node that keeps it, and one that isn't known is asked of it; its
/// answer is printed once.
pub fn a_question_goes_to_the_nodes_that_keep_its_pair()
    ensures { Prints Client (pair_under_v
        ++ codes "arp B 02:00:00:00:01:02 10.0.0.2 10.0.0.9 -" ∷ codes "run 1001"
        ∷ codes "arp A 02:00:00:00:01:01 10.0.0.1 10.0.0.2 -" ∷ codes "run 2"
        ∷ codes "deliver 13" ∷ codes "show A dat" ∷ codes "show B dat" ∷ [])
        (codes "arp B 10.0.0.9 none"
        ∷ (codes "f10 1001 A>B unicast4 420f320002000000000b02000000000a0300ffffffffffff02000000010108060001080006040002"
        ++ codes "0200000001010a00000100000000000000000000")
        ∷ (codes "f11 1001 A>B unicast4 420f320002000000000b02000000000a0200ffffffffffff02000000010108060001080006040001"
        ++ codes "0200000001010a0000010000000000000a000002")
        ∷ (codes "f13 1002 B>A unicast4 420f320002000000000a02000000000b040002000000010102000000010208060001080006040002"
        ++ codes "0200000001020a0000020200000001010a000001")
        ∷ codes "arp A 10.0.0.2 is 02:00:00:00:01:02 dht"
        ∷ codes "dat A count=2" ∷ codes "d 10.0.0.1 - 02:00:00:00:01:01 age=2"
        ∷ codes "d 10.0.0.2 - 02:00:00:00:01:02 age=0"
        ∷ codes "dat B count=2" ∷ codes "d 10.0.0.1 - 02:00:00:00:01:01 age=1"
        ∷ codes "d 10.0.0.2 - 02:00:00:00:01:02 age=1003" ∷ []) }
{}
