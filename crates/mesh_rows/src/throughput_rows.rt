//! Nodes of algorithm V, computed from the definitions alone: what one hears of the others.

ghost use Rattle.std.specs.Prelude.{◌≡◌, [], ◌∷◌, codes, true, false, None, Some};
ghost use Rattle.mesh_model.specs.Routes.AlgorithmV.{v_queries};
ghost use Rattle.mesh_model.specs.Routes.Algorithms.{queries_of};
ghost use Rattle.mesh_model.specs.Routes.Neighbours.{is_up};
ghost use Rattle.mesh_model.specs.Routes.Queries.{unheard};
ghost use Rattle.mesh_model.specs.Text.Tables.{link_table_text, orig_table_text};
ghost use Rattle.mesh_model.specs.declared.line_form.Algorithm.TheVariants.{Iv, V};
ghost use Rattle.mesh_model.specs.declared.packet.Head.TheVariants.{Elp, IvOgm, Ogm2};
ghost use Rattle.mesh_model.specs.declared.route.LinkRow.TheVariants.{V as VLink};
ghost use Rattle.mesh_rows.specs.RouteRows.{mac_a, mac_b, log_of_a};
ghost use Rattle.mesh_rows.specs.Rows.{lines};
ghost use Rattle.mesh_rows.specs.ThroughputRows.{mac_c, mac_d, elp_of, ogm_of_d, comes_from, log_with_b, log_with_both, log_by_b, log_by_both, route_to_d, metric_of_d, path_to_d, originators_under_v, neighbours_under_v};

/// An ELP is sent at each tick, an OGM at those of even index. Each has numbers of its own.
pub fn an_elp_is_sent_at_each_tick()
    ensures odd { (v_queries mac_a).beats log_of_a 7
        ≡ record { elp = Some (Elp mac_a 7 500); ogm = None } }
    ensures even { (v_queries mac_a).beats log_of_a 8
        ≡ record { elp = Some (Elp mac_a 7 500); ogm = Some (Ogm2 50 0 4 mac_a 4294967295) } }
    ensures chosen { (queries_of V mac_a).beats log_of_a 7
        ≡ record { elp = Some (Elp mac_a 7 500); ogm = None } }
    ensures other { (queries_of Iv mac_a).beats log_of_a 8
        ≡ record { elp = None; ogm = Some (IvOgm 50 0 4 mac_a mac_a 255) } }
{}

/// A neighbour is up until its last ELP is 5,000 ms old.
pub fn an_elp_grows_old()
    ensures up { is_up 5500 mac_b log_with_b ≡ true }
    ensures down { is_up 5501 mac_b log_with_b ≡ false }
    ensures row { (v_queries mac_a).neighbours log_with_b 5500 ≡ VLink mac_b 100 4999 ∷ [] }
    ensures no_row { (v_queries mac_a).neighbours log_with_b 5501 ≡ [] }
    ensures again { (v_queries mac_a).neighbours
        (comes_from mac_b 5501 (elp_of mac_b 11) log_with_both) 5501 ≡ VLink mac_b 100 0 ∷ [] }
    ensures both { (v_queries mac_a).neighbours log_with_both 5500
        ≡ VLink mac_b 100 4999 ∷ VLink mac_c 100 4999 ∷ [] }
{}

/// An ELP that another node sends is no ELP of its originator, nor of the sender.
pub fn an_elp_of_another_does_not_count()
    ensures sender { is_up 501 mac_b (comes_from mac_b 501 (elp_of mac_c 1) []) ≡ false }
    ensures originator { is_up 501 mac_c (comes_from mac_b 501 (elp_of mac_c 1) []) ≡ false }
{}

/// An OGM is heard while its sender is up, and where it isn't the node's own.
pub fn an_ogm_is_heard_from_a_neighbour_that_is_up()
    ensures before { (v_queries mac_a).hear [] 1001 mac_b 100 (Ogm2 50 0 1 mac_b 4294967295)
        ≡ unheard }
    ensures last { (v_queries mac_a).hear log_with_b 5500 mac_b 100
        (Ogm2 50 0 10 mac_b 4294967295)
        ≡ record { accepted = true; began = true; forward = Some (Ogm2 49 0 10 mac_b 88) } }
    ensures down { (v_queries mac_a).hear log_with_b 5501 mac_b 100
        (Ogm2 50 0 10 mac_b 4294967295) ≡ unheard }
    ensures own { (v_queries mac_a).hear log_with_b 1002 mac_b 100 (Ogm2 49 0 1 mac_a 88)
        ≡ unheard }
    ensures elp { (v_queries mac_a).hear log_with_b 1001 mac_b 100 (elp_of mac_b 2) ≡ unheard }
    ensures other { (v_queries mac_a).hear log_with_b 1001 mac_b 100
        (IvOgm 50 0 1 mac_b mac_b 255) ≡ unheard }
{}

/// The value is the lesser of the throughput that an OGM tells and that of the link to its sender;
/// a part of it is sent on, with the flags that came. One whose value is 0, or that may go no
/// further, is accepted and not sent on.
pub fn a_value_is_the_lesser_throughput()
    ensures link { (v_queries mac_a).hear log_with_b 1001 mac_b 100 (Ogm2 50 7 1 mac_b 255)
        ≡ record { accepted = true; began = true; forward = Some (Ogm2 49 7 1 mac_b 88) } }
    ensures told { (v_queries mac_a).hear log_with_b 1001 mac_b 300 (Ogm2 50 0 1 mac_b 255)
        ≡ record { accepted = true; began = true; forward = Some (Ogm2 49 0 1 mac_b 225) } }
    ensures no_link { (v_queries mac_a).hear log_with_b 1001 mac_b 0 (Ogm2 50 0 1 mac_b 255)
        ≡ record { accepted = true; began = true; forward = None } }
    ensures last_hop { (v_queries mac_a).hear log_with_b 1001 mac_b 100 (Ogm2 1 0 1 mac_b 255)
        ≡ record { accepted = true; began = true; forward = None } }
{}

/// The best route is over the neighbour of greatest throughput that is up, in a tie over that of
/// the smaller address.
pub fn the_best_route_is_over_a_neighbour_that_is_up()
    ensures first { route_to_d log_by_b 1500 ≡ Some mac_b }
    ensures better { route_to_d log_by_both 1500 ≡ Some mac_c }
    ensures metric { metric_of_d log_by_both 1500 ≡ 80 }
    ensures tie { route_to_d (comes_from mac_c 1003 (ogm_of_d 1 60) log_by_b) 1500 ≡ Some mac_b }
    ensures down { route_to_d (comes_from mac_b 3001 (elp_of mac_b 6) log_by_both) 5501
        ≡ Some mac_b }
    ensures lesser { metric_of_d (comes_from mac_b 3001 (elp_of mac_b 6) log_by_both) 5501 ≡ 60 }
    ensures live { (v_queries mac_a).live log_by_both 5501 mac_d ≡ true }
    ensures no_route { route_to_d log_by_both 5501 ≡ None }
    ensures no_metric { metric_of_d log_by_both 5501 ≡ 0 }
{}

/// A number is sent on once, from the neighbour over which the best route then is.
pub fn a_number_is_sent_on_over_the_best_route()
    ensures first { (v_queries mac_a).hear log_with_both 1002 mac_b 100 (ogm_of_d 1 60)
        ≡ record { accepted = true; began = true; forward = Some (Ogm2 48 0 1 mac_d 52) } }
    ensures again { (v_queries mac_a).hear log_by_b 1003 mac_c 100 (ogm_of_d 1 80)
        ≡ record { accepted = false; began = false; forward = None } }
    ensures next { (v_queries mac_a).hear log_by_both 2002 mac_c 100 (ogm_of_d 2 80)
        ≡ record { accepted = true; began = false; forward = Some (Ogm2 48 0 2 mac_d 70) } }
    ensures worse { (v_queries mac_a).hear log_by_both 2002 mac_b 100 (ogm_of_d 2 60)
        ≡ record { accepted = true; began = false; forward = None } }
{}

/// The greatest number from a neighbour counts, by its first hearing, while it is among the
/// originator's newest five.
pub fn numbers_five_below_do_not_count()
    ensures four_below { path_to_d (comes_from mac_b 5002 (ogm_of_d 5 60) log_by_both) 5003 mac_c
        ≡ 80 }
    ensures five_below { path_to_d (comes_from mac_b 5002 (ogm_of_d 6 60) log_by_both) 5003 mac_c
        ≡ 0 }
    ensures lesser_value { path_to_d (comes_from mac_c 2002 (ogm_of_d 2 20) log_by_both) 2003 mac_c
        ≡ 20 }
    ensures lesser_number { path_to_d (comes_from mac_c 2003 (ogm_of_d 2 20)
        (comes_from mac_c 2002 (ogm_of_d 3 70) log_by_both)) 2004 mac_c ≡ 70 }
    ensures repeated { path_to_d (comes_from mac_c 1004 (ogm_of_d 1 100) log_by_both) 1005 mac_c
        ≡ 80 }
    ensures none { path_to_d log_by_b 1500 mac_c ≡ 0 }
{}

/// What A prints of both tables.
pub fn both_tables_are_printed_under_v()
    ensures originators { orig_table_text (originators_under_v log_by_both 1500) ≡ lines
        (codes "o A algo=v count=1"
        ∷ codes "o 02:00:00:00:00:0d seq=1 seen=497 next=02:00:00:00:00:0c metric=80" ∷ []) }
    ensures neighbours { link_table_text (neighbours_under_v log_by_both 1500) ≡ lines
        (codes "n A algo=v count=2" ∷ codes "n 02:00:00:00:00:0b tp=100 seen=999"
        ∷ codes "n 02:00:00:00:00:0c tp=100 seen=999" ∷ []) }
    ensures without_route { orig_table_text (originators_under_v log_by_both 5501) ≡ lines
        (codes "o A algo=v count=1"
        ∷ codes "o 02:00:00:00:00:0d seq=1 seen=4498 next=- metric=0" ∷ []) }
{}
