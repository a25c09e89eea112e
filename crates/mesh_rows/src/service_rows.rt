//! What nodes do for one another, computed from the definitions alone: gateways, groups, the ARP
//! table, facts, their primaries, and transactions.

ghost use Rattle.std.specs.Prelude.{◌≡◌, [], ◌∷◌, ◌++◌, codes, true, false, None, Some, filter, is_some, length, map};
ghost use Rattle.mesh_model.specs.Packets.ArpMessages.{arp_came, arp_message_of, arp_spelling};
ghost use Rattle.mesh_model.specs.Packets.FactMessages.{HasEnd, HasPart, Primary, Requests, fact_message_of, fact_message_spelling};
ghost use Rattle.mesh_model.specs.Services.ArpTable.{candidates_of, node_place, pair_address, pair_place, pairs_at};
ghost use Rattle.mesh_model.specs.Services.Facts.{CameFrom, WasPut, facts_at, kept_fact};
ghost use Rattle.mesh_model.specs.Services.Gateways.{chosen_gateway};
ghost use Rattle.mesh_model.specs.Services.Groups.{fan_of, is_wanted};
ghost use Rattle.mesh_model.specs.Services.Primaries.{best_primary};
ghost use Rattle.mesh_model.specs.Services.Transactions.{made_whole, transaction};
ghost use Rattle.mesh_model.specs.declared.line_form.Policy.TheVariants.{Best, Late, Stable};
ghost use Rattle.mesh_model.specs.declared.service.Fan.TheVariants.{Each, Flood, Nobody};
ghost use Rattle.mesh_model.specs.declared.service.Mark.TheVariants.{First, Local, Synced};
ghost use Rattle.mesh_rows.specs.ServiceRows.{end, first_ip, gateway, learned, no_vlan, node, part, primary, second_ip, shorter_fronts, tagged_bytes, told, told_bytes, told_front, told_rest, vlan};

/// A gateway is chosen by its policy.
pub fn a_gateway_is_chosen_by_its_policy()
    ensures kept { chosen_gateway (Late 10) (Some (node 11))
        (gateway 11 100 ∷ gateway 12 109 ∷ []) ≡ Some (node 11) }
    ensures left { chosen_gateway (Late 10) (Some (node 11))
        (gateway 11 100 ∷ gateway 12 110 ∷ []) ≡ Some (node 12) }
    ensures none { chosen_gateway (Late 10) (Some (node 11)) [] ≡ None }
    ensures best { chosen_gateway Best (Some (node 11)) (gateway 11 100 ∷ gateway 12 101 ∷ [])
        ≡ Some (node 12) }
    ensures smaller { chosen_gateway Best None (gateway 12 100 ∷ gateway 11 100 ∷ [])
        ≡ Some (node 11) }
    ensures stable { chosen_gateway Stable (Some (node 11))
        (gateway 11 1 ∷ gateway 12 200 ∷ []) ≡ Some (node 11) }
    ensures lost { chosen_gateway Stable (Some (node 11)) (gateway 12 200 ∷ [])
        ≡ Some (node 12) }
{}

/// How a frame goes to a group, and which groups flags want.
pub fn a_group_has_receivers()
    ensures nobody { fan_of 0 ≡ Nobody }
    ensures each { fan_of 16 ≡ Each }
    ensures flood { fan_of 17 ≡ Flood }
    ensures all_hosts { is_wanted (record { 0 = 1 ∷ 0 ∷ 94 ∷ 0 ∷ 0 ∷ 251 ∷ [] }) 1 ≡ true }
    ensures all_nodes { is_wanted (record { 0 = 51 ∷ 51 ∷ 0 ∷ 0 ∷ 0 ∷ 1 ∷ [] }) 1 ≡ true }
    ensures other { is_wanted (record { 0 = 51 ∷ 51 ∷ 0 ∷ 0 ∷ 0 ∷ 2 ∷ [] }) 3 ≡ false }
    ensures ipv4 { is_wanted (record { 0 = 1 ∷ 0 ∷ 94 ∷ 127 ∷ 0 ∷ 1 ∷ [] }) 2 ≡ true }
    ensures ipv6 { is_wanted (record { 0 = 51 ∷ 51 ∷ 0 ∷ 0 ∷ 0 ∷ 2 ∷ [] }) 4 ≡ true }
    ensures unflagged { is_wanted (record { 0 = 1 ∷ 0 ∷ 94 ∷ 127 ∷ 0 ∷ 1 ∷ [] }) 1 ≡ false }
{}

/// A pair is known until it was learned 300,000 ms ago.
pub fn a_pair_is_known_for_a_while()
    ensures young { pair_address (learned 0 first_ip no_vlan (node 11) ∷ []) 299999 first_ip no_vlan
        ≡ Some (node 11) }
    ensures old { pair_address (learned 0 first_ip no_vlan (node 11) ∷ []) 300000 first_ip no_vlan
        ≡ None }
    ensures by_vlan { pair_address (learned 0 first_ip no_vlan (node 11) ∷ []) 0 first_ip (vlan 1)
        ≡ None }
    ensures last { pair_address (learned 7 first_ip no_vlan (node 12)
        ∷ learned 0 first_ip no_vlan (node 11) ∷ []) 300001 first_ip no_vlan ≡ Some (node 12) }
    ensures rows { pairs_at (learned 7 first_ip (vlan 1) (node 12)
        ∷ learned 5 second_ip no_vlan (node 13) ∷ learned 3 first_ip no_vlan (node 11) ∷ []) 10
        ≡ record { ip = first_ip; vid = no_vlan; mac = node 11; age = 7 }
        ∷ record { ip = first_ip; vid = vlan 1; mac = node 12; age = 3 }
        ∷ record { ip = second_ip; vid = no_vlan; mac = node 13; age = 5 } ∷ [] }
{}

/// The places of pairs and nodes on the ring, as another program computed them, and the three nodes
/// with the least distance from a pair.
pub fn a_pair_has_three_candidates()
    ensures first { pair_place first_ip no_vlan ≡ 22056 }
    ensures second { pair_place second_ip no_vlan ≡ 38491 }
    ensures tagged { pair_place first_ip (vlan 7) ≡ 51258 }
    ensures other { pair_place 3232235796 (vlan 1) ≡ 61951 }
    ensures node_a { node_place (node 10) ≡ 62577 }
    ensures node_c { node_place (node 12) ≡ 5017 }
    ensures candidates { candidates_of second_ip no_vlan
        (node 10 ∷ node 11 ∷ node 12 ∷ node 13 ∷ node 14 ∷ [])
        ≡ node 13 ∷ node 11 ∷ node 14 ∷ [] }
    ensures round { candidates_of first_ip no_vlan
        (node 14 ∷ node 13 ∷ node 12 ∷ node 11 ∷ node 10 ∷ [])
        ≡ node 12 ∷ node 10 ∷ node 13 ∷ [] }
    ensures few { candidates_of first_ip no_vlan (node 14 ∷ []) ≡ node 14 ∷ [] }
{}

/// Nothing comes of bytes that are no message of the ARP table: cut anywhere, or a byte longer, of
/// another type, operation or subtype, or with a tag that is no VLAN's. The same bytes whole are one.
pub fn nothing_comes_of_other_bytes()
    ensures whole { is_some (arp_came 3 told_bytes) ≡ true }
    ensures short { filter is_some (map (arp_came 3) (shorter_fronts told_bytes)) ≡ [] }
    ensures long { arp_came 3 (told_bytes ++ 0 ∷ []) ≡ None }
    ensures other_type { arp_came 3 (told_front [] 0 ++ told_rest 2) ≡ None }
    ensures operation { map (λ operation. arp_came 3 (told_front [] 6 ++ told_rest operation))
        (0 ∷ 1 ∷ 3 ∷ []) ≡ None ∷ None ∷ None ∷ [] }
    ensures subtype { map (λ subtype. arp_came subtype told_bytes) (1 ∷ 2 ∷ 5 ∷ [])
        ≡ None ∷ None ∷ None ∷ [] }
    ensures vlans { map is_some (map (arp_came 3) (tagged_bytes 0 1 ∷ tagged_bytes 15 254 ∷ []))
        ≡ true ∷ true ∷ [] }
    ensures no_vlans { map (arp_came 3) (tagged_bytes 0 0 ∷ tagged_bytes 15 255 ∷ [])
        ≡ None ∷ None ∷ [] }
{}

/// A question for the address of 10.0.0.2, in VLAN 7.
pub fn a_question_is_spelled_and_read()
    ensures spelled { arp_spelling (record { 0 = 255 ∷ 255 ∷ 255 ∷ 255 ∷ 255 ∷ 255 ∷ [] }) (node 11)
        (record {
          vid = vlan 7;
          operation = 1;
          sender = node 11;
          sender_ip = first_ip;
          target = record { 0 = 0 ∷ 0 ∷ 0 ∷ 0 ∷ 0 ∷ 0 ∷ [] };
          target_ip = second_ip;
        })
        ≡ 255 ∷ 255 ∷ 255 ∷ 255 ∷ 255 ∷ 255 ∷ 2 ∷ 0 ∷ 0 ∷ 0 ∷ 0 ∷ 11 ∷ 129 ∷ 0 ∷ 0 ∷ 7 ∷ 8 ∷ 6
        ∷ 0 ∷ 1 ∷ 8 ∷ 0 ∷ 6 ∷ 4 ∷ 0 ∷ 1 ∷ 2 ∷ 0 ∷ 0 ∷ 0 ∷ 0 ∷ 11 ∷ 10 ∷ 0 ∷ 0 ∷ 1
        ∷ 0 ∷ 0 ∷ 0 ∷ 0 ∷ 0 ∷ 0 ∷ 10 ∷ 0 ∷ 0 ∷ 2 ∷ [] }
    ensures read { arp_message_of (255 ∷ 255 ∷ 255 ∷ 255 ∷ 255 ∷ 255 ∷ 2 ∷ 0 ∷ 0 ∷ 0 ∷ 0 ∷ 11
        ∷ 129 ∷ 0 ∷ 0 ∷ 7 ∷ 8 ∷ 6 ∷ 0 ∷ 1 ∷ 8 ∷ 0 ∷ 6 ∷ 4 ∷ 0 ∷ 1 ∷ 2 ∷ 0 ∷ 0 ∷ 0 ∷ 0 ∷ 11
        ∷ 10 ∷ 0 ∷ 0 ∷ 1 ∷ 0 ∷ 0 ∷ 0 ∷ 0 ∷ 0 ∷ 0 ∷ 10 ∷ 0 ∷ 0 ∷ 2 ∷ [])
        ≡ Some (record {
          vid = vlan 7;
          operation = 1;
          sender = node 11;
          sender_ip = first_ip;
          target = record { 0 = 0 ∷ 0 ∷ 0 ∷ 0 ∷ 0 ∷ 0 ∷ [] };
          target_ip = second_ip;
        }) }
{}

/// What is kept of a source and a type: a put is local, what its source sends is first, what another
/// sends is synced, and less never takes the place of more that is live.
pub fn a_fact_is_kept_by_its_mark()
    ensures put { kept_fact (WasPut 5 (told 10 64 (codes "hi")) ∷ []) (node 10) 64
        ≡ Some (record { moment = 5; mark = Local; fact = told 10 64 (codes "hi") }) }
    ensures first { kept_fact (CameFrom 5 (node 11) (told 11 64 (codes "a")) ∷ []) (node 11) 64
        ≡ Some (record { moment = 5; mark = First; fact = told 11 64 (codes "a") }) }
    ensures stays { kept_fact (CameFrom 600004 (node 12) (told 11 64 (codes "b"))
        ∷ CameFrom 5 (node 11) (told 11 64 (codes "a")) ∷ []) (node 11) 64
        ≡ Some (record { moment = 5; mark = First; fact = told 11 64 (codes "a") }) }
    ensures dead { kept_fact (CameFrom 600005 (node 12) (told 11 64 (codes "b"))
        ∷ CameFrom 5 (node 11) (told 11 64 (codes "a")) ∷ []) (node 11) 64
        ≡ Some (record { moment = 600005; mark = Synced; fact = told 11 64 (codes "b") }) }
    ensures own_comes_back { kept_fact (CameFrom 6 (node 12) (told 10 64 (codes "b"))
        ∷ WasPut 5 (told 10 64 (codes "a")) ∷ []) (node 10) 64
        ≡ Some (record { moment = 5; mark = Local; fact = told 10 64 (codes "a") }) }
    ensures rows { facts_at (WasPut 7 (told 10 65 (codes "c"))
        ∷ CameFrom 6 (node 11) (told 11 64 (codes "b")) ∷ WasPut 5 (told 10 64 (codes "a")) ∷ []) 8
        ≡ record { moment = 5; mark = Local; fact = told 10 64 (codes "a") }
        ∷ record { moment = 7; mark = Local; fact = told 10 65 (codes "c") }
        ∷ record { moment = 6; mark = First; fact = told 11 64 (codes "b") } ∷ [] }
{}

/// The best primary has the greatest metric above 0, in a tie the smaller address, and announced
/// itself less than 60,000 ms ago.
pub fn the_best_primary_is_known_and_reached()
    ensures greatest { best_primary 9 (primary 11 0 1 ∷ primary 12 0 2 ∷ []) ≡ Some (node 12) }
    ensures tie { best_primary 9 (primary 12 0 2 ∷ primary 11 0 2 ∷ []) ≡ Some (node 11) }
    ensures unreached { best_primary 9 (primary 11 0 0 ∷ []) ≡ None }
    ensures known { best_primary 59999 (primary 11 0 1 ∷ []) ≡ Some (node 11) }
    ensures forgotten { best_primary 60000 (primary 11 0 1 ∷ []) ≡ None }
{}

/// A transaction is whole where its end and all parts below its count came, in any order.
pub fn a_transaction_becomes_whole()
    ensures last_part { made_whole (part 3 0) (end 2 2 ∷ part 1 1 ∷ [])
        ≡ Some (told 11 64 (codes "x") ∷ told 11 65 (codes "x") ∷ []) }
    ensures last_end { made_whole (end 3 2) (part 2 1 ∷ part 1 0 ∷ [])
        ≡ Some (told 11 64 (codes "x") ∷ told 11 65 (codes "x") ∷ []) }
    ensures missing { made_whole (end 3 2) (part 2 1 ∷ part 1 1 ∷ []) ≡ None }
    ensures first_end_counts { made_whole (end 4 1) (end 3 2 ∷ part 1 0 ∷ []) ≡ None }
    ensures nothing { made_whole (end 3 0) [] ≡ Some [] }
    ensures in_time { made_whole (end 60000 1) (part 1 0 ∷ [])
        ≡ Some (told 11 64 (codes "x") ∷ []) }
    ensures too_late { made_whole (end 60001 1) (part 1 0 ∷ []) ≡ None }
    ensures gone { transaction (end 3 1 ∷ part 1 0 ∷ []) (node 11) 1 ≡ None }
{}

/// Messages of the fact store: a part, an end, an announcement and a request, read as they were
/// spelled; one whose length isn't that of what follows is none.
pub fn fact_messages_are_read_as_they_were_spelled()
    ensures part { fact_message_of (fact_message_spelling (node 10) (node 11)
        (HasPart true 1 0 (told 11 64 (codes "hi") ∷ [])))
        ≡ Some (record {
          sender = node 11;
          message = HasPart true 1 0 (told 11 64 (codes "hi") ∷ []);
        }) }
    ensures end { fact_message_of (fact_message_spelling (node 10) (node 11) (HasEnd false 7 2))
        ≡ Some (record { sender = node 11; message = HasEnd false 7 2 }) }
    ensures primary { fact_message_of (fact_message_spelling (node 10) (node 11) Primary)
        ≡ Some (record { sender = node 11; message = Primary }) }
    ensures request { fact_message_of (fact_message_spelling (node 10) (node 11) (Requests 7 64))
        ≡ Some (record { sender = node 11; message = Requests 7 64 }) }
    ensures too_long { fact_message_of (2 ∷ 0 ∷ 0 ∷ 0 ∷ 0 ∷ 10 ∷ 2 ∷ 0 ∷ 0 ∷ 0 ∷ 0 ∷ 11 ∷ 66 ∷ 66
        ∷ 1 ∷ 0 ∷ 0 ∷ 0 ∷ 0 ∷ []) ≡ None }
{}
