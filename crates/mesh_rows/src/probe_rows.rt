//! What calls leave of the probes that wait for an answer, computed from the definitions alone.

ghost use Rattle.std.specs.Prelude.{◌≡◌, true, false, [], ◌∷◌};
ghost use Rattle.mesh_model.specs.Probes.OpenProbes.{Started, Answered, Closed, first_probe, leads_on, next_number, told, probes_by, no_probes};
ghost use Rattle.mesh_model.specs.declared.probe.Told.TheVariants.{Unknown, Done, Next};
ghost use Rattle.mesh_rows.specs.CallRows.{node, hop_50};

/// A ping's answer ends it; a second answer to its number finds nothing.
pub fn a_ping_is_answered_once()
    ensures first { told 1 0 (probes_by (Started 7 (node 11) false ∷ [])) ≡ Done (node 11) 7 50 }
    ensures again { told 1 0 (probes_by (Answered 9 1 0 ∷ Started 7 (node 11) false ∷ []))
        ≡ Unknown }
    ensures closed { told 1 0 (probes_by (Closed 1 ∷ Started 7 (node 11) false ∷ [])) ≡ Unknown }
{}

/// A traceroute goes on hop by hop while a ttl is exceeded, each probe under the next number.
pub fn a_traceroute_goes_on()
    ensures first { first_probe (node 11) true no_probes
        ≡ record { target = node 11; seq = 1; ttl = 1 } }
    ensures next { told 1 11 (probes_by (Started 7 (node 11) true ∷ []))
        ≡ Next 1 7 (record { target = node 11; seq = 2; ttl = 2 }) }
    ensures last { told 2 0 (probes_by (Answered 9 1 11 ∷ Started 7 (node 11) true ∷ []))
        ≡ Done (node 11) 9 2 }
    ensures unreachable { told 1 3 (probes_by (Started 7 (node 11) true ∷ []))
        ≡ Done (node 11) 7 1 }
{}

/// After hop 50 no further one follows.
pub fn a_traceroute_ends_at_hop_50()
    ensures { leads_on 11 hop_50 ≡ false }
{}

/// The 65,536th probe has the number 0, and the one after it the number 1.
pub fn numbers_go_round()
    ensures first { next_number 0 ≡ 1 }
    ensures round { next_number 65535 ≡ 0 }
    ensures again { next_number 65536 ≡ 1 }
{}
