//! How a packet is cut, and how the fragments that come are put together, computed from the
//! definitions alone.

ghost use Rattle.std.specs.Prelude.{◌≡◌, [], ◌∷◌, ◌++◌, codes, None, Some, take, drop, length, map, true, false};
ghost use Rattle.mesh_base.specs.declared.event.Reason.TheVariants.{Table};
ghost use Rattle.mesh_model.specs.declared.act.Act.TheVariants.{Link};
ghost use Rattle.mesh_model.specs.declared.frame_choice.FrameChoice.TheVariants.{Client};
ghost use Rattle.mesh_model.specs.declared.packet.Head.TheVariants.{Bcast, Frag};
ghost use Rattle.mesh_model.specs.Acts.Cuts.{cut_acts, passes_cuts};
ghost use Rattle.mesh_model.specs.Fragments.Assembly.{assembly, made_whole};
ghost use Rattle.mesh_model.specs.Fragments.Cutting.{fragment_count, fragments, tails};
ghost use Rattle.mesh_model.specs.Packets.Layout.{spelling};
ghost use Rattle.mesh_rows.specs.CallRows.{node};
ghost use Rattle.mesh_rows.specs.FragmentRows.{call_came, call_in_hex, call_with, client_of_gateway, comes, cut_at, cutter_after, letters_in_hex, packet};
ghost use Rattle.mesh_rows.specs.NetRows.{Prints};

/// A packet of 324 bytes is cut at 300 into tails of 280 and of 44 bytes; one of another kind than
/// those for one node isn't cut.
pub fn a_packet_is_cut()
    ensures cut { fragments (cut_at 300 324)
        ≡ (Frag 50 0 0 (node 11) (node 10) 1 324, take 280 (packet 324))
        ∷ (Frag 50 1 0 (node 11) (node 10) 1 324, drop 280 (packet 324)) ∷ [] }
    ensures spelled { map (λ fragment. take 20 (spelling fragment.0 fragment.1))
        (fragments (cut_at 300 324))
        ≡ (65 ∷ 15 ∷ 50 ∷ 0 ∷ (node 11).0 ++ (node 10).0 ++ 0 ∷ 1 ∷ 1 ∷ 68 ∷ [])
        ∷ (65 ∷ 15 ∷ 50 ∷ 16 ∷ (node 11).0 ++ (node 10).0 ++ 0 ∷ 1 ∷ 1 ∷ 68 ∷ []) ∷ [] }
    ensures sizes { map (λ fragment. length fragment.1) (fragments (cut_at 300 560))
        ≡ 280 ∷ 280 ∷ [] }
    ensures other_kind { fragments (record (cut_at 300 324) {
      packet = spelling (Bcast 50 1 (node 10)) (packet 324);
    }) ≡ [] }
{}

/// A packet has as many fragments as hold it.
pub fn fragments_hold_their_packet()
    ensures two { tails 300 (packet 301) ≡ take 280 (packet 301) ∷ drop 280 (packet 301) ∷ [] }
    ensures fifteen { fragment_count 300 (packet 4074) ≡ 15 }
    ensures sixteen { fragment_count 300 (packet 4480) ≡ 16 }
{}

/// An assembly is whole where the first parts are there, in any order, and together are as long as
/// the packet.
pub fn an_assembly_becomes_whole()
    ensures cut { made_whole (comes 2 324 0 (take 280 (packet 324)))
        (comes 1 324 1 (drop 280 (packet 324)) ∷ comes 0 324 1 (drop 280 (packet 324)) ∷ [])
        ≡ Some (packet 324) }
    ensures in_order { made_whole (comes 1 5 1 (codes "de")) (comes 0 5 0 (codes "abc") ∷ [])
        ≡ Some (codes "abcde") }
    ensures first_counts { made_whole (comes 2 5 0 (codes "abc"))
        (comes 1 5 1 (codes "xy") ∷ comes 0 5 1 (codes "de") ∷ []) ≡ Some (codes "abcde") }
    ensures missing { made_whole (comes 1 5 2 (codes "de")) (comes 0 5 0 (codes "abc") ∷ [])
        ≡ None }
    ensures too_short { made_whole (comes 1 6 1 (codes "de")) (comes 0 6 0 (codes "abc") ∷ [])
        ≡ None }
    ensures too_long { made_whole (comes 0 2 0 (codes "abc")) [] ≡ None }
    ensures two_totals { made_whole (comes 1 5 1 (codes "de")) (comes 0 6 0 (codes "abc") ∷ [])
        ≡ None }
    ensures empty { made_whole (comes 0 0 0 []) [] ≡ Some [] }
{}

/// An assembly is open for 10,000 ms, or until it is whole.
pub fn an_assembly_is_open_for_a_while()
    ensures in_time { made_whole (comes 10004 5 1 (codes "de")) (comes 5 5 0 (codes "abc") ∷ [])
        ≡ Some (codes "abcde") }
    ensures too_late { made_whole (comes 10005 5 1 (codes "de")) (comes 5 5 0 (codes "abc") ∷ [])
        ≡ None }
    ensures anew { assembly (comes 10005 5 1 (codes "de") ∷ comes 5 5 0 (codes "abc") ∷ [])
        (node 10) 1 5 ≡ Some (record { opened = 10005; parts = (1, codes "de") ∷ [] }) }
    ensures since_the_first { assembly (comes 9 5 1 (codes "d") ∷ comes 5 5 0 (codes "abc") ∷ [])
        (node 10) 1 5
        ≡ Some (record { opened = 5; parts = (0, codes "abc") ∷ (1, codes "d") ∷ [] }) }
    ensures gone { assembly (comes 9 5 1 (codes "de") ∷ comes 5 5 0 (codes "abc") ∷ [])
        (node 10) 1 5 ≡ None }
{}

/// A node cuts what is longer than it lets go whole, and numbers its cuts; each packet comes once.
pub fn a_node_cuts_what_is_too_long()
    ensures { Prints Client (client_of_gateway ++ call_with 276 ∷ call_with 277 ∷ call_with 278
        ∷ codes "run 1" ∷ [])
        ((codes "f15 2000 A>B unicast by=gw " ++ call_in_hex 276)
        ∷ (codes "f16 2000 A>B frag 410f320002000000000b02000000000a0001012d" ++ call_in_hex 256)
        ∷ (codes "f17 2000 A>B frag 410f321002000000000b02000000000a0001012d"
        ++ letters_in_hex 21)
        ∷ (codes "f18 2000 A>B frag 410f320002000000000b02000000000a0002012e" ++ call_in_hex 256)
        ∷ (codes "f19 2000 A>B frag 410f321002000000000b02000000000a0002012e"
        ++ letters_in_hex 22)
        ∷ call_came 276 ∷ call_came 277 ∷ call_came 278 ∷ []) }
{}

/// A packet of another kind goes whole, and so does one that is too long for fragments; a cut is
/// numbered by those before it, and none is made behind the last number.
pub fn acts_are_cut()
    ensures cut { cut_acts (cutter_after 6)
        (Link (Some (node 11)) (Some Table) (packet 300) ∷ Link None (Some Table) (packet 301) ∷ [])
        ≡ Link (Some (node 11)) (Some Table) (packet 300)
        ∷ Link None None (spelling (Frag 50 0 0 (node 11) (node 10) 7 301) (take 280 (packet 301)))
        ∷ Link None None (spelling (Frag 50 1 0 (node 11) (node 10) 7 301) (drop 280 (packet 301)))
        ∷ [] }
    ensures other_kind { cut_acts (cutter_after 6)
        (Link None None (spelling (Bcast 50 1 (node 10)) (packet 324)) ∷ [])
        ≡ Link None None (spelling (Bcast 50 1 (node 10)) (packet 324)) ∷ [] }
    ensures too_long { cut_acts (cutter_after 6) (Link None (Some Table) (packet 4481) ∷ [])
        ≡ Link None (Some Table) (packet 4481) ∷ [] }
    ensures last { passes_cuts (cutter_after 65534) (Link None (Some Table) (packet 301) ∷ [])
        ≡ false }
    ensures behind { passes_cuts (cutter_after 65535)
        (Link None (Some Table) (packet 300) ∷ Link None (Some Table) (packet 301) ∷ []) ≡ true }
    ensures before { cut_acts (cutter_after 65535)
        (Link None (Some Table) (packet 300) ∷ Link None (Some Table) (packet 301) ∷ [])
        ≡ Link None (Some Table) (packet 300) ∷ [] }
{}
