//! Small scenarios with links, computed from the definitions alone: what each prints, where it
//! ends, and which link frames its nodes were given.

ghost use Rattle.std.specs.Prelude.{◌≡◌, true, false, [], ◌∷◌, ◌++◌, codes, length, Some, None};
ghost use Rattle.mesh_model.specs.declared.ending.LimitName.TheVariants.{Clients, Clock, FrameBytes, Frames, Nodes, Vlans};
ghost use Rattle.mesh_model.specs.declared.ending.Refusal.TheVariants.{LinkTaken, NoSuchFrame, SameNode, UnknownName};
ghost use Rattle.mesh_model.specs.declared.ending.Stop.TheVariants.{Limit, Refused};
ghost use Rattle.mesh_model.specs.declared.frame_choice.FrameChoice.TheVariants.{All, Client, Hidden, Ogm};
ghost use Rattle.mesh_model.specs.Acts.OwnContainers.{arp_table_container};
ghost use Rattle.mesh_model.specs.Run.Outcome.{reached};
ghost use Rattle.mesh_model.specs.Run.Rules.{setup_of};
ghost use Rattle.mesh_rows.specs.NetLines.{acts_on, bare_containers, duo, forwarded_line, is_full_after, limit_after, many_nodes, many_vlans, message_bytes, message_line, node_mac, sent_on};
ghost use Rattle.mesh_rows.specs.NetRows.{run_of, with_limits, EndsAt, EndsWith, Prints, Takes};

/// Two nodes send their first originator messages at their second ticks, in the order of their
/// lines.
pub fn two_nodes_send_their_messages()
    ensures { Prints Ogm (duo ++ codes "run 1000" ∷ [])
        ((codes "f1 1000 A>B iv_ogm 000f32000000000102000000000a02000000000a"
        ++ codes "00ff000c020100000401000401000000")
        ∷ (codes "f2 1000 B>A iv_ogm 000f32000000000102000000000b02000000000b"
        ++ codes "00ff000c020100000401000401000000") ∷ []) }
{}

/// What a node hears of its neighbour it sends on, marked as heard from the originator itself, and
/// as not from the best next hop until its own message came back. From then on it has a quality.
pub fn two_nodes_send_messages_on()
    ensures { Prints Ogm (duo ++ codes "run 2001" ∷ [])
        (message_line (codes "f1 1000 A>B") (codes "1") (codes "a")
        ∷ message_line (codes "f2 1000 B>A") (codes "1") (codes "b")
        ∷ forwarded_line (codes "f3 1001 B>A") (codes "05") (codes "1") (codes "a") (codes "00")
        ∷ forwarded_line (codes "f4 1001 A>B") (codes "05") (codes "1") (codes "b") (codes "00")
        ∷ message_line (codes "f5 2000 A>B") (codes "2") (codes "a")
        ∷ message_line (codes "f6 2000 B>A") (codes "2") (codes "b")
        ∷ forwarded_line (codes "f7 2001 B>A") (codes "04") (codes "2") (codes "a") (codes "09")
        ∷ forwarded_line (codes "f8 2001 A>B") (codes "04") (codes "2") (codes "b") (codes "09")
        ∷ []) }
{}

/// Each message of a link frame is heard, one behind the other, and sent on. One without a
/// translation table is passed over, and bytes that are no packet give nothing.
pub fn messages_of_a_frame_are_heard_one_by_one()
    ensures both { acts_on (message_bytes 10 1 bare_containers
        ++ message_bytes 10 2 bare_containers)
        ≡ sent_on 10 1 bare_containers ∷ sent_on 10 2 bare_containers ∷ [] }
    ensures again { acts_on (message_bytes 10 1 bare_containers
        ++ message_bytes 10 1 bare_containers)
        ≡ sent_on 10 1 bare_containers ∷ [] }
    ensures bare { acts_on (message_bytes 10 1 (arp_table_container ∷ [])
        ++ message_bytes 10 2 bare_containers) ≡ sent_on 10 2 bare_containers ∷ [] }
    ensures none { acts_on (codes "no packet") ≡ [] }
{}

/// The choice of frames hides originator messages.
pub fn a_choice_hides_frames()
    ensures hidden { Prints Hidden (duo ++ codes "run 1000" ∷ []) [] }
    ensures client { Prints Client (duo ++ codes "run 1000" ∷ []) [] }
    ensures all { Prints All (duo ++ codes "run 1000" ∷ [])
        (message_line (codes "f1 1000 A>B") (codes "1") (codes "a")
        ∷ message_line (codes "f2 1000 B>A") (codes "1") (codes "b") ∷ []) }
{}

/// A second message has the number 2. A node that is made later ticks later.
pub fn a_later_node_ticks_later()
    ensures { Prints Ogm
        (codes "node A 02:00:00:00:00:0a" ∷ codes "run 30" ∷ codes "node B 02:00:00:00:00:0b"
        ∷ codes "link A B" ∷ codes "link B A" ∷ codes "run 2000" ∷ [])
        (message_line (codes "f1 1000 A>B") (codes "1") (codes "a")
        ∷ forwarded_line (codes "f2 1001 B>A") (codes "05") (codes "1") (codes "a") (codes "00")
        ∷ message_line (codes "f3 1030 B>A") (codes "1") (codes "b")
        ∷ forwarded_line (codes "f4 1031 A>B") (codes "04") (codes "1") (codes "b") (codes "0a")
        ∷ message_line (codes "f5 2000 A>B") (codes "2") (codes "a")
        ∷ forwarded_line (codes "f6 2001 B>A") (codes "04") (codes "2") (codes "a") (codes "09")
        ∷ message_line (codes "f7 2030 B>A") (codes "2") (codes "b") ∷ []) }
{}

/// Time may pass in two lines.
pub fn time_passes_in_two_lines()
    ensures { Prints Ogm (duo ++ codes "run 999" ∷ codes "run 1" ∷ [])
        (message_line (codes "f1 1000 A>B") (codes "1") (codes "a")
        ∷ message_line (codes "f2 1000 B>A") (codes "1") (codes "b") ∷ []) }
{}

/// A message goes out on each link of the node, in the order of the links. Each frame arrives after
/// its link's delay, and tells the throughput of the link back.
pub fn a_message_goes_out_on_all_links()
    ensures sent { Prints Ogm
        (codes "node A 02:00:00:00:00:0a" ∷ codes "node B 02:00:00:00:00:0b"
        ∷ codes "node C 02:00:00:00:00:0c" ∷ codes "link A C delay=7" ∷ codes "link A B"
        ∷ codes "run 1007" ∷ [])
        (message_line (codes "f1 1000 A>C") (codes "1") (codes "a")
        ∷ message_line (codes "f2 1000 A>B") (codes "1") (codes "a") ∷ []) }
    ensures taken { Takes
        (duo ++ codes "node C 02:00:00:00:00:0c" ∷ codes "link A C delay=7"
        ∷ codes "link C A tp=500" ∷ codes "run 1007" ∷ codes "deliver 2" ∷ [])
        Hidden (codes "C")
        (record { moment = 1007; number = 2; from = node_mac 10; throughput = 500 }
        ∷ record { moment = 1007; number = 2; from = node_mac 10; throughput = 500 } ∷ []) }
{}

/// The frames of a link take the marks of its pattern in turn: one arrives once, one never, one
/// twice, and one is held until it is delivered by a line.
pub fn a_pattern_decides_what_arrives()
    ensures { Takes
        (codes "node A 02:00:00:00:00:0a" ∷ codes "node B 02:00:00:00:00:0b"
        ∷ codes "link A B delay=3 pattern=.x2h" ∷ codes "run 4500" ∷ codes "deliver 4" ∷ [])
        Hidden (codes "B")
        (record { moment = 4500; number = 4; from = node_mac 10; throughput = 0 }
        ∷ record { moment = 3006; number = 3; from = node_mac 10; throughput = 0 }
        ∷ record { moment = 3003; number = 3; from = node_mac 10; throughput = 0 }
        ∷ record { moment = 1003; number = 1; from = node_mac 10; throughput = 0 } ∷ []) }
{}

/// A frame that is delivered again is one more of the same number, and another link's frames take
/// their own turns.
pub fn a_frame_is_delivered_again()
    ensures { Takes (duo ++ codes "run 1001" ∷ codes "deliver 1" ∷ codes "run 1" ∷ [])
        Hidden (codes "B")
        (record { moment = 1002; number = 4; from = node_mac 10; throughput = 10 }
        ∷ record { moment = 1001; number = 1; from = node_mac 10; throughput = 10 }
        ∷ record { moment = 1001; number = 1; from = node_mac 10; throughput = 10 } ∷ []) }
{}

/// A frame that wasn't sent can't be delivered.
pub fn no_frame_is_delivered_before_one_is_sent()
    ensures first { EndsAt Hidden (codes "node A 02:00:00:00:00:0a" ∷ codes "deliver 1" ∷ []) [] 2
        (Refused NoSuchFrame) }
    ensures zero { EndsAt Hidden (duo ++ codes "run 1000" ∷ codes "deliver 0" ∷ []) [] 6
        (Refused NoSuchFrame) }
    ensures next { EndsAt Hidden (duo ++ codes "run 1000" ∷ codes "deliver 3" ∷ []) [] 6
        (Refused NoSuchFrame) }
{}

/// A link leads to another node, once, and its names are looked at first.
pub fn a_link_leads_to_another_node_once()
    ensures itself { EndsAt Hidden (duo ++ codes "link A A" ∷ []) [] 5 (Refused SameNode) }
    ensures taken { EndsAt Hidden (duo ++ codes "link A B delay=2" ∷ []) [] 5 (Refused LinkTaken) }
    ensures unknown { EndsAt Hidden (duo ++ codes "link X X" ∷ []) [] 5 (Refused UnknownName) }
{}

/// The clock goes to its limit, and no further.
pub fn the_clock_has_a_limit()
    ensures last { Prints Hidden (codes "run 1099511627776" ∷ []) [] }
    ensures past { EndsAt Hidden (codes "run 1099511627776" ∷ codes "run 1" ∷ []) [] 2
        (Limit Clock) }
    ensures first { EndsAt Ogm (duo ++ codes "run 1000" ∷ codes "run 1099511626777" ∷ [])
        (message_line (codes "f1 1000 A>B") (codes "1") (codes "a")
        ∷ message_line (codes "f2 1000 B>A") (codes "1") (codes "b") ∷ []) 6 (Limit Clock) }
{}

/// There are at most 64 nodes.
pub fn a_65th_node_passes_the_limit()
    ensures most { Prints Hidden (many_nodes 64) [] }
    ensures past { EndsAt Hidden (many_nodes 65) [] 65 (Limit Nodes) }
{}

/// A node's clients are in at most 16 VLANs.
pub fn a_17th_vlan_passes_the_limit()
    ensures { EndsAt Hidden (codes "node A 02:00:00:00:00:0a" ∷ many_vlans 17) [] 18
        (Limit Vlans) }
{}

/// There are at most 512 links, and at most 4,096 clients at a node.
pub fn a_513th_link_and_a_4097th_client_pass_the_limits()
    ensures links { is_full_after 511 ≡ false }
    ensures past { is_full_after 512 ≡ true }
    ensures clients { limit_after 4095 ≡ None }
    ensures client { limit_after 4096 ≡ Some Clients }
{}

/// Where a limit ends a run in its middle, what happened before is printed, and nothing of the
/// happening that would pass it. Frames are counted before bytes.
pub fn a_limit_ends_a_run_in_its_middle()
    ensures between { EndsWith (with_limits 3 1000) Ogm (duo ++ codes "run 5000" ∷ [])
        (message_line (codes "f1 1000 A>B") (codes "1") (codes "a")
        ∷ message_line (codes "f2 1000 B>A") (codes "1") (codes "b")
        ∷ forwarded_line (codes "f3 1001 B>A") (codes "05") (codes "1") (codes "a") (codes "00")
        ∷ []) 5 (Limit Frames) }
    ensures within { EndsWith (with_limits 3 1000) Ogm
        (duo ++ codes "node C 02:00:00:00:00:0c" ∷ codes "link B C" ∷ codes "run 2000"
        ∷ codes "run 1" ∷ [])
        (message_line (codes "f1 1000 A>B") (codes "1") (codes "a")
        ∷ message_line (codes "f2 1000 B>A") (codes "1") (codes "b")
        ∷ message_line (codes "f3 1000 B>C") (codes "1") (codes "b") ∷ []) 7 (Limit Frames) }
    ensures bytes { EndsWith (with_limits 3 107) Ogm (duo ++ codes "run 5000" ∷ [])
        (message_line (codes "f1 1000 A>B") (codes "1") (codes "a")
        ∷ message_line (codes "f2 1000 B>A") (codes "1") (codes "b") ∷ []) 5 (Limit FrameBytes) }
    ensures both { EndsWith (with_limits 2 107) Ogm (duo ++ codes "run 5000" ∷ [])
        (message_line (codes "f1 1000 A>B") (codes "1") (codes "a")
        ∷ message_line (codes "f2 1000 B>A") (codes "1") (codes "b") ∷ []) 5 (Limit Frames) }
{}

/// Three nodes in a chain, five seconds.
pub fn a_chain_runs_for_five_seconds()
    ensures { length (reached (run_of setup_of Hidden
        (duo ++ codes "node C 02:00:00:00:00:0c" ∷ codes "link B C" ∷ codes "link C B"
        ∷ codes "run 5000" ∷ [])).outcome).mesh.frames ≡ 48 }
{}
