//! Two nodes of algorithm IV, computed from the definitions alone: what one hears of the other.

ghost use Rattle.std.specs.Prelude.{◌≡◌, [], ◌∷◌, codes, true, false, None, Some};
ghost use Rattle.mesh_model.specs.Routes.AlgorithmIv.{iv_queries};
ghost use Rattle.mesh_model.specs.Routes.Hearings.{heard};
ghost use Rattle.mesh_model.specs.Routes.Numbers.{window};
ghost use Rattle.mesh_model.specs.Routes.Quality.{asymmetry, echo_quality, link_quality, receive_quality, transmit_quality};
ghost use Rattle.mesh_model.specs.Text.Tables.{neighbor_line, link_table_text, orig_line, orig_table_text};
ghost use Rattle.mesh_model.specs.declared.packet.Head.TheVariants.{IvOgm};
ghost use Rattle.mesh_model.specs.declared.route.LinkRow.TheVariants.{Iv, V as VLink};
ghost use Rattle.mesh_rows.specs.RouteRows.{mac_a, mac_b, ogm_of_b, log_before_1, log_with_1, log_before_2, log_with_2, log_of_a, heard_by_a, originators_of_a, neighbours_of_a};
ghost use Rattle.mesh_rows.specs.Rows.{lines};

/// A first OGM, of which nothing came back, has the value 0.
pub fn a_link_without_echoes_is_worth_nothing()
    ensures received { receive_quality 1001 mac_b (heard_by_a log_with_1) ≡ 1 }
    ensures echoed { echo_quality mac_a mac_b log_with_1 ≡ 0 }
    ensures value { transmit_quality 255 0 1 ≡ 0 }
{}

/// A second OGM, after one echo, has the value 11.
pub fn a_link_with_an_echo_has_a_value()
    ensures received { receive_quality 2001 mac_b (heard_by_a log_with_2) ≡ 2 }
    ensures echoed { echo_quality mac_a mac_b log_with_2 ≡ 1 }
    ensures link { link_quality 1 2 ≡ 127 }
    ensures asym { asymmetry 2 ≡ 24 }
    ensures value { transmit_quality 255 1 2 ≡ 11 }
{}

/// An OGM from its originator is sent on with DIRECTLINK, and with NOT_BEST_NEXT_HOP where there is
/// no route to it. A life begins with the first.
pub fn direct_ogms_are_sent_on()
    ensures first { (iv_queries mac_a).hear log_before_1 1001 mac_b 1000 (ogm_of_b 1)
        ≡ record { accepted = true; began = true; forward = Some (IvOgm 49 5 1 mac_b mac_b 0) } }
    ensures second { (iv_queries mac_a).hear log_before_2 2001 mac_b 1000 (ogm_of_b 2)
        ≡ record { accepted = true; began = false; forward = Some (IvOgm 49 4 2 mac_b mac_b 9) } }
{}

/// A repeated OGM is neither accepted nor sent on.
pub fn a_repeated_ogm_does_nothing()
    ensures { (iv_queries mac_a).hear log_with_2 2002 mac_b 1000 (ogm_of_b 2)
        ≡ record { accepted = false; began = false; forward = None } }
{}

/// The tables of originators and neighbours have B.
pub fn both_tables_have_the_other_node()
    ensures originators { (iv_queries mac_a).originators log_of_a 3000
        ≡ record { orig = mac_b; seq = 2; seen = 999; next = Some mac_b; metric = 11 } ∷ [] }
    ensures neighbours { (iv_queries mac_a).neighbours log_of_a 3000 ≡ Iv mac_b 2 2 ∷ [] }
{}

/// What A prints of both tables.
pub fn both_tables_are_printed()
    ensures originators { orig_table_text (originators_of_a 3000) ≡ lines
        (codes "o A algo=iv count=1"
        ∷ codes "o 02:00:00:00:00:0b seq=2 seen=999 next=02:00:00:00:00:0b metric=11" ∷ []) }
    ensures neighbours { link_table_text (neighbours_of_a 3000) ≡ lines
        (codes "n A algo=iv count=1" ∷ codes "n 02:00:00:00:00:0b rq=2 eq=2" ∷ []) }
    ensures no_route { orig_line (record {
      orig = mac_b;
      seq = 7;
      seen = 0;
      next = None;
      metric = 0;
    }) ≡ lines (codes "o 02:00:00:00:00:0b seq=7 seen=0 next=- metric=0" ∷ []) }
    ensures throughput { neighbor_line (VLink mac_b 50 499)
        ≡ lines (codes "n 02:00:00:00:00:0b tp=50 seen=499" ∷ []) }
{}

/// An OGM is sent at ticks of even index.
pub fn an_ogm_is_sent_at_even_ticks()
    ensures even { (iv_queries mac_a).beats log_of_a 8
        ≡ record { elp = None; ogm = Some (IvOgm 50 0 4 mac_a mac_a 255) } }
    ensures odd { (iv_queries mac_a).beats log_of_a 7 ≡ record { elp = None; ogm = None } }
{}

/// An originator lives until 200,000 ms after its last hearing.
pub fn a_life_ends_after_its_span()
    ensures lives { (iv_queries mac_a).live log_of_a 202000 mac_b ≡ true }
    ensures ended { (iv_queries mac_a).live log_of_a 202001 mac_b ≡ false }
    ensures no_route { (iv_queries mac_a).route log_of_a 202001 mac_b ≡ None }
{}

/// A window keeps what is less than 64 below its greatest number, each number once.
pub fn a_window_reaches_back_sixty_three_numbers()
    ensures { window (5 ∷ 69 ∷ 6 ∷ 5 ∷ 69 ∷ []) ≡ 6 ∷ 69 ∷ [] }
{}
