//! Lines of events, computed from the definitions alone.

ghost use Rattle.std.specs.Prelude.{◌≡◌, [], ◌∷◌, ◌++◌, codes, true, false, None, Some};
ghost use Rattle.mesh_base.specs.Names.{no_names};
ghost use Rattle.mesh_base.specs.declared.event.ArpResult.TheVariants as arps;
ghost use Rattle.mesh_base.specs.declared.event.Event.TheVariants.{Alfred, Alias, Arp, LanSent};
ghost use Rattle.mesh_base.specs.declared.event.FactResult.TheVariants as facts;
ghost use Rattle.mesh_base.specs.declared.event.Reason.TheVariants.{Roam};
ghost use Rattle.mesh_model.specs.declared.frame_choice.FrameChoice.TheVariants.{All, Client, Hidden, Ogm};
ghost use Rattle.mesh_model.specs.Packets.LanFrames.{announce_spelling};
ghost use Rattle.mesh_model.specs.Text.Events.{event_line, event_text};
ghost use Rattle.mesh_rows.specs.CallRows.{client};
ghost use Rattle.mesh_rows.specs.EventRows.{claimed_by_a, first_to_b, lost_at_a, reached_the_lan, received_at_b, two_names};
ghost use Rattle.mesh_rows.specs.RouteRows.{mac_a};
ghost use Rattle.mesh_rows.specs.Rows.{lines};

/// Each event has its line, by the names of nodes.
pub fn events_have_their_lines()
    ensures frame { event_line two_names (first_to_b (Some Roam) (64 ∷ 15 ∷ []))
        ≡ lines (codes "f1 1000 A>B unicast by=roam 400f" ∷ []) }
    ensures received { event_line two_names received_at_b
        ≡ lines (codes "recv 5501 B - 02:00:00:00:01:02 02:00:00:00:01:01 hi" ∷ []) }
    ensures lost { event_line two_names lost_at_a
        ≡ lines (codes "lost 0 A 7 02:00:00:00:01:01 02:00:00:00:01:09 unknown" ∷ []) }
    ensures alias { event_line two_names (Alias mac_a 65536 0)
        ≡ lines (codes "alias A 65536 0" ∷ []) }
{}

/// What happens on a LAN has its line, by the LAN's name.
pub fn events_of_a_lan_have_their_lines()
    ensures claim { event_line two_names (claimed_by_a true)
        ≡ lines (codes "l2 0 L claim ff430500000102000000000a88b60200000001010000" ∷ []) }
    ensures unclaim { event_line two_names (claimed_by_a false)
        ≡ lines (codes "l2 0 L unclaim ff430501000102000000000a88b60200000001010000" ∷ []) }
    ensures announce { event_line two_names (LanSent 9 10000 1 (announce_spelling 1 mac_a 3))
        ≡ lines (codes "l9 10000 L announce ff430502000102000000000a88b600000003" ∷ []) }
    ensures other { event_line two_names (LanSent 1 0 1 (255 ∷ 67 ∷ []))
        ≡ lines (codes "l1 0 L client ff43" ∷ []) }
    ensures reached { event_line two_names reached_the_lan
        ≡ lines (codes "recv 5 L - 02:00:00:00:01:02 02:00:00:00:01:01 hi" ∷ []) }
{}

/// Questions for an IP address and for facts have their lines.
pub fn questions_have_their_lines()
    ensures arp_off { event_line two_names (Arp mac_a 167772162 arps.Off)
        ≡ lines (codes "arp A 10.0.0.2 off" ∷ []) }
    ensures unknown { event_line two_names (Arp mac_a 3232235777 arps.Unknown)
        ≡ lines (codes "arp A 192.168.1.1 none" ∷ []) }
    ensures cached { event_line two_names (Arp mac_a 167772161 (arps.Cached (client 1).mac))
        ≡ lines (codes "arp A 10.0.0.1 is 02:00:00:00:01:01 cache" ∷ []) }
    ensures found { event_line two_names (Arp mac_a 167772161 (arps.Found (client 1).mac))
        ≡ lines (codes "arp A 10.0.0.1 is 02:00:00:00:01:01 dht" ∷ []) }
    ensures facts_off { event_line two_names (Alfred mac_a 64 facts.Off)
        ≡ lines (codes "alfred A get 64 off" ∷ []) }
    ensures no_primary { event_line two_names (Alfred mac_a 64 facts.NoPrimary)
        ≡ lines (codes "alfred A get 64 noprimary" ∷ []) }
    ensures empty { event_line two_names (Alfred mac_a 64 facts.Empty)
        ≡ lines (codes "alfred A get 64 empty" ∷ []) }
    ensures fact { event_line two_names (Alfred mac_a 64 (facts.Fact mac_a 1 (codes "hi")))
        ≡ lines (codes "alfred A get 64 02:00:00:00:00:0a 1 hi" ∷ []) }
{}

/// A node without a name is printed by its address, and a kind that isn't known as a dash.
pub fn a_missing_name_is_the_address()
    ensures { event_line no_names (first_to_b None (2 ∷ []))
        ≡ lines (codes "f1 1000 02:00:00:00:00:0a>02:00:00:00:00:0b - 02" ∷ []) }
{}

/// A choice hides link frames and LAN frames, and nothing else.
pub fn a_choice_hides_frames_alone()
    ensures lan { event_text Client two_names (claimed_by_a true) ≡ [] }
    ensures lan_all { event_text All two_names (claimed_by_a true)
        ≡ event_line two_names (claimed_by_a true) }
    ensures lan_reached { event_text Hidden two_names reached_the_lan
        ≡ event_line two_names reached_the_lan }
    ensures all { event_text Hidden two_names (first_to_b None (64 ∷ [])) ≡ [] }
    ensures ogm { event_text Ogm two_names (first_to_b None (64 ∷ [])) ≡ [] }
    ensures client { event_text Client two_names (first_to_b None (64 ∷ []))
        ≡ lines (codes "f1 1000 A>B unicast 40" ∷ []) }
    ensures lost { event_text Hidden two_names lost_at_a ≡ event_line two_names lost_at_a }
{}
