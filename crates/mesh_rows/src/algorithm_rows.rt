//! The choice of an algorithm, and small scenarios under algorithm V, computed from the definitions
//! alone.

ghost use Rattle.std.specs.Prelude.{[], ◌∷◌, ◌++◌, codes};
ghost use Rattle.mesh_model.specs.declared.ending.Refusal.TheVariants.{AlgoAfterNode, ExtraWord, MissingWord, OutOfRange};
ghost use Rattle.mesh_model.specs.declared.ending.Stop.TheVariants.{Refused};
ghost use Rattle.mesh_model.specs.declared.frame_choice.FrameChoice.TheVariants.{Client, Hidden, Ogm};
ghost use Rattle.mesh_rows.specs.AlgorithmLines.{chain_under_v, duo_under_v, elp_line, known_line, throughput_line};
ghost use Rattle.mesh_rows.specs.NetLines.{duo};
ghost use Rattle.mesh_rows.specs.NetRows.{EndsAt, Prints};

/// The algorithm is chosen before the first node, any number of times.
pub fn the_algorithm_is_chosen_first()
    ensures before { Prints Hidden (codes "algo iv" ∷ codes "algo iv" ∷ duo) [] }
    ensures after { EndsAt Hidden (codes "algo iv" ∷ duo ++ codes "algo iv" ∷ []) [] 6
        (Refused AlgoAfterNode) }
    ensures other { EndsAt Hidden (duo ++ codes "algo v" ∷ []) [] 5 (Refused AlgoAfterNode) }
    ensures word { EndsAt Hidden (codes "algo x" ∷ []) [] 1 (Refused OutOfRange) }
    ensures missing { EndsAt Hidden (codes "algo" ∷ []) [] 1 (Refused MissingWord) }
    ensures extra { EndsAt Hidden (codes "algo v v" ∷ []) [] 1 (Refused ExtraWord) }
{}

/// The last choice counts, and algorithm IV where there is none. The clock stays.
pub fn the_last_choice_counts()
    ensures none { Prints Ogm (duo ++ codes "run 500" ∷ codes "show A n" ∷ [])
        (codes "n A algo=iv count=0" ∷ []) }
    ensures back { Prints Ogm
        (codes "algo v" ∷ codes "algo iv" ∷ duo ++ codes "run 500" ∷ codes "show A o" ∷ [])
        (codes "o A algo=iv count=0" ∷ []) }
    ensures last { Prints Ogm
        (codes "algo v" ∷ codes "run 7" ∷ codes "algo iv" ∷ duo_under_v ++ codes "run 500"
        ∷ codes "show A n" ∷ [])
        (elp_line (codes "f1 507 A>B") (codes "1") (codes "a")
        ∷ elp_line (codes "f2 507 B>A") (codes "1") (codes "b")
        ∷ codes "n A algo=v count=0" ∷ []) }
{}

/// At each tick an ELP goes out on all links, before the originator message. A message that is sent
/// on tells the throughput of the link to its sender, less a part for the hop.
pub fn elps_go_out_before_messages()
    ensures { Prints Ogm (duo_under_v ++ codes "run 1001" ∷ [])
        (elp_line (codes "f1 500 A>B") (codes "1") (codes "a")
        ∷ elp_line (codes "f2 500 B>A") (codes "1") (codes "b")
        ∷ elp_line (codes "f3 1000 A>B") (codes "2") (codes "a")
        ∷ throughput_line (codes "f4 1000 A>B") (codes "32") (codes "1") (codes "a")
        (codes "ffffffff")
        ∷ elp_line (codes "f5 1000 B>A") (codes "2") (codes "b")
        ∷ throughput_line (codes "f6 1000 B>A") (codes "32") (codes "1") (codes "b")
        (codes "ffffffff")
        ∷ throughput_line (codes "f7 1001 B>A") (codes "31") (codes "1") (codes "a")
        (codes "0000002c")
        ∷ throughput_line (codes "f8 1001 A>B") (codes "31") (codes "1") (codes "b")
        (codes "00000058") ∷ []) }
{}

/// The throughput to a neighbour is that of the node's own link to it.
pub fn neighbours_have_the_throughput_of_the_link()
    ensures { Prints Hidden
        (duo_under_v ++ codes "run 1500" ∷ codes "show A o" ∷ codes "show A n"
        ∷ codes "show B o" ∷ codes "show B n" ∷ [])
        (codes "o A algo=v count=1"
        ∷ known_line (codes "b") (codes "499") (codes "b") (codes "100")
        ∷ codes "n A algo=v count=1" ∷ codes "n 02:00:00:00:00:0b tp=100 seen=499"
        ∷ codes "o B algo=v count=1"
        ∷ known_line (codes "a") (codes "499") (codes "a") (codes "50")
        ∷ codes "n B algo=v count=1" ∷ codes "n 02:00:00:00:00:0a tp=50 seen=499" ∷ []) }
{}

/// Along a chain each node has the lesser of its link's throughput and what the node before it sent
/// on. An originator is heard again as its messages come back from the far side.
pub fn a_chain_is_worth_its_least_link()
    ensures ends { Prints Hidden
        (chain_under_v ++ codes "run 1500" ∷ codes "show A o" ∷ codes "show D o" ∷ [])
        (codes "o A algo=v count=3"
        ∷ known_line (codes "b") (codes "499") (codes "b") (codes "50")
        ∷ known_line (codes "c") (codes "498") (codes "b") (codes "50")
        ∷ known_line (codes "d") (codes "497") (codes "b") (codes "15")
        ∷ codes "o D algo=v count=3"
        ∷ known_line (codes "a") (codes "497") (codes "c") (codes "20")
        ∷ known_line (codes "b") (codes "498") (codes "c") (codes "20")
        ∷ known_line (codes "c") (codes "499") (codes "c") (codes "20") ∷ []) }
    ensures between { Prints Hidden
        (chain_under_v ++ codes "run 1500" ∷ codes "show B o" ∷ codes "show C o" ∷ [])
        (codes "o B algo=v count=3"
        ∷ known_line (codes "a") (codes "497") (codes "a") (codes "50")
        ∷ known_line (codes "c") (codes "497") (codes "c") (codes "100")
        ∷ known_line (codes "d") (codes "496") (codes "c") (codes "17")
        ∷ codes "o C algo=v count=3"
        ∷ known_line (codes "a") (codes "496") (codes "b") (codes "44")
        ∷ known_line (codes "b") (codes "497") (codes "b") (codes "100")
        ∷ known_line (codes "d") (codes "497") (codes "d") (codes "20") ∷ []) }
{}

/// A neighbour is down 5,000 ms after the last ELP that came, and no route leads over it; its
/// originator lives on.
pub fn a_silent_neighbour_goes_down()
    ensures { Prints Hidden
        (codes "algo v" ∷ codes "node A 02:00:00:00:00:0a" ∷ codes "node B 02:00:00:00:00:0b"
        ∷ codes "link A B tp=100"
        ∷ codes "link B A pattern=...xxxxxxxxxxxxxxxxxxxxxxxxxxxxxxxxxxxxxxxxxxxxxxxxxxxxx"
        ∷ codes "run 6000" ∷ codes "show A o" ∷ codes "show A n" ∷ codes "run 1"
        ∷ codes "show A o" ∷ codes "show A n" ∷ [])
        (codes "o A algo=v count=1"
        ∷ known_line (codes "b") (codes "4999") (codes "b") (codes "100")
        ∷ codes "n A algo=v count=1" ∷ codes "n 02:00:00:00:00:0b tp=100 seen=4999"
        ∷ codes "o A algo=v count=1" ∷ codes "o 02:00:00:00:00:0b seq=1 seen=5000 next=- metric=0"
        ∷ codes "n A algo=v count=0" ∷ []) }
{}

/// A ping is answered along a chain, and a table is asked for and taken, as under algorithm IV.
pub fn pings_and_tables_go_under_v()
    ensures ping { Prints Hidden
        (chain_under_v ++ codes "run 1500" ∷ codes "ping A D" ∷ codes "run 6" ∷ [])
        (codes "ping A D seq=1 reply ttl=48 rtt=6" ∷ []) }
    ensures table { Prints Hidden
        (duo_under_v ++ codes "frame A 02:00:00:00:01:01 ff:ff:ff:ff:ff:ff - x"
        ∷ codes "run 1002" ∷ codes "show B tg" ∷ codes "run 1" ∷ codes "show B tg" ∷ [])
        (codes "recv 1 B - 02:00:00:00:01:01 ff:ff:ff:ff:ff:ff x" ∷ codes "tg B count=1"
        ∷ codes "t 02:00:00:00:00:0a held=- told=1 state=none entries=0"
        ∷ codes "tg B count=1" ∷ codes "t 02:00:00:00:00:0a held=1 told=1 state=ok entries=1"
        ∷ codes "e 02:00:00:00:01:01 - --" ∷ []) }
{}

/// A client frame goes to the node in whose table its client is, as under algorithm IV: behind five
/// ELPs of each node, two OGMs of each, both sent on by the other, a request and its answer.
pub fn a_client_frame_goes_by_table_under_v()
    ensures { Prints Client
        (duo_under_v ++ codes "frame B 02:00:00:00:01:02 02:00:00:00:01:09 - x"
        ∷ codes "run 2500" ∷ codes "frame A 02:00:00:00:01:01 02:00:00:00:01:02 - hi"
        ∷ codes "run 1" ∷ [])
        (codes "lost 0 B - 02:00:00:00:01:02 02:00:00:00:01:09 unknown"
        ∷ (codes "f21 2500 A>B unicast by=table "
        ++ codes "400f320102000000000b02000000010202000000010188b56869")
        ∷ codes "recv 2501 B - 02:00:00:00:01:01 02:00:00:00:01:02 hi" ∷ []) }
{}
