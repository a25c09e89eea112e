//! What calls leave of marks, requests and advertisements, computed from the definitions alone.

ghost use Rattle.std.specs.Prelude.{◌≡◌, [], ◌∷◌, None, Some};
ghost use Rattle.mesh_model.specs.Marks.Calls.{Marked, Released, Unmarked, Forgotten};
ghost use Rattle.mesh_model.specs.Marks.RoamingMarks.{mark_of, marks_at};
ghost use Rattle.mesh_model.specs.Marks.Requests.{too_soon};
ghost use Rattle.mesh_model.specs.Marks.Advertisements.{too_many};
ghost use Rattle.mesh_rows.specs.CallRows.{client, node, five_adverts, one_request, some_marks};

/// Five advertisements of a client keep the next one back until the first is 20,000 ms old; those
/// of another client don't count.
pub fn a_sixth_advertisement_waits()
    ensures early { too_many 19999 five_adverts (client 1) ≡ Some 0 }
    ensures late { too_many 20000 five_adverts (client 1) ≡ None }
    ensures other { too_many 19999 five_adverts (client 2) ≡ None }
{}

/// An originator is asked again after 3,000 ms, and at once in a new life.
pub fn a_second_request_waits()
    ensures early { too_soon 3009 one_request (node 10) ≡ Some 10 }
    ensures late { too_soon 3010 one_request (node 10) ≡ None }
    ensures other { too_soon 3009 one_request (node 11) ≡ None }
    ensures new_life { too_soon 3009 (Forgotten (node 10) ∷ one_request) (node 10) ≡ None }
{}

/// A mark stands for less than 600,000 ms.
pub fn a_mark_ages()
    ensures young { mark_of 600004 (Marked 5 (client 1) (node 11) (Some 3) ∷ []) (client 1)
        ≡ Some (node 11) }
    ensures old { mark_of 600005 (Marked 5 (client 1) (node 11) (Some 3) ∷ []) (client 1) ≡ None }
{}

/// A release ends a mark of its target alone, and not under the byte that the target had told.
pub fn a_release_ends_marks_under_another_byte()
    ensures same_byte { mark_of 9
        (Released (node 11) 3 ∷ Marked 5 (client 1) (node 11) (Some 3) ∷ []) (client 1)
        ≡ Some (node 11) }
    ensures other_byte { mark_of 9
        (Released (node 11) 4 ∷ Marked 5 (client 1) (node 11) (Some 3) ∷ []) (client 1) ≡ None }
    ensures any_byte { mark_of 9 (Released (node 11) 0 ∷ Marked 5 (client 1) (node 11) None ∷ [])
        (client 1) ≡ None }
    ensures other_target { mark_of 9
        (Released (node 12) 4 ∷ Marked 5 (client 1) (node 11) (Some 3) ∷ []) (client 1)
        ≡ Some (node 11) }
{}

/// Marks are listed in key order, the last one of each client; one that was ended is left out.
pub fn marks_are_listed()
    ensures { marks_at 9 some_marks ≡ (client 1, node 12) ∷ (client 2, node 10) ∷ [] }
{}
