//! Claims of a client on a LAN, computed from the definitions alone: who holds it, what its gateways
//! do with its frames, and how the frames are spelled by which they agree.

ghost use Rattle.std.specs.Prelude.{◌≡◌, [], ◌∷◌, ◌++◌, codes, true, false, None, Some};
ghost use Rattle.mesh_model.specs.Bridges.Claims.{claim_holder, claims_at, claims_of};
ghost use Rattle.mesh_model.specs.Bridges.Verdicts.{verdict_from_lan, verdict_from_mesh};
ghost use Rattle.mesh_model.specs.Packets.LanFrames.{Carries, Claims, Nothing, announce_spelling, claim_spelling, lan_message_of};
ghost use Rattle.mesh_model.specs.Packets.Payload.{payload_spelling};
ghost use Rattle.mesh_model.specs.declared.claim.Spread.TheVariants.{Flood, SameLan, Unicast};
ghost use Rattle.mesh_rows.specs.ServiceRows.{claims, client, node, vlan};

/// A claim stands for less than 100,000 ms, and until another frame of its client comes.
pub fn a_claim_stands_for_a_while()
    ensures young { claim_holder (claims 0 (node 10) true ∷ []) 99999 client ≡ Some (node 10) }
    ensures old { claim_holder (claims 0 (node 10) true ∷ []) 100000 client ≡ None }
    ensures another { claim_holder (claims 5 (node 11) true ∷ claims 0 (node 10) true ∷ []) 5 client
        ≡ Some (node 11) }
    ensures given_up { claim_holder (claims 5 (node 11) false ∷ claims 0 (node 10) true ∷ []) 5 client ≡ None }
    ensures row { claims_at (claims 5 (node 11) true ∷ claims 0 (node 10) true ∷ []) 7
        ≡ record { key = client; holder = node 11; age = 2 } ∷ [] }
    ensures own { claims_of (node 11) (claims 5 (node 11) true ∷ claims 0 (node 10) true ∷ []) 7
        ≡ 1 }
    ensures lost { claims_of (node 10) (claims 5 (node 11) true ∷ claims 0 (node 10) true ∷ []) 7
        ≡ 0 }
{}

/// A frame from the LAN: its source's holder passes it, and claims anew after 10,000 ms; where there
/// is none, it is claimed and held back.
pub fn a_frame_from_the_lan_is_passed_by_the_holder()
    ensures holder { verdict_from_lan (node 10) (claims 0 (node 10) true ∷ []) 9999 client
        ≡ record { pass = true; claim = false } }
    ensures renewed { verdict_from_lan (node 10) (claims 0 (node 10) true ∷ []) 10000 client
        ≡ record { pass = true; claim = true } }
    ensures nobody { verdict_from_lan (node 10) [] 0 client
        ≡ record { pass = false; claim = true } }
    ensures another { verdict_from_lan (node 11) (claims 0 (node 10) true ∷ []) 0 client
        ≡ record { pass = false; claim = false } }
{}

/// A frame from the mesh to a client is passed by each gateway, one to a group by the holder alone,
/// and by none where a gateway of the LAN broadcast it.
pub fn a_frame_from_the_mesh_is_passed_by_its_spread()
    ensures holder { verdict_from_mesh (node 10) (claims 0 (node 10) true ∷ []) 1 client Unicast
        ≡ record { pass = true; claim = false } }
    ensures nobody { verdict_from_mesh (node 10) [] 1 client Unicast
        ≡ record { pass = true; claim = true } }
    ensures another { verdict_from_mesh (node 11) (claims 0 (node 10) true ∷ []) 1 client Unicast
        ≡ record { pass = true; claim = true } }
    ensures flood { verdict_from_mesh (node 10) (claims 0 (node 10) true ∷ []) 1 client Flood
        ≡ record { pass = true; claim = false } }
    ensures flood_of_nobody { verdict_from_mesh (node 10) [] 1 client Flood
        ≡ record { pass = false; claim = true } }
    ensures flood_of_another { verdict_from_mesh (node 11) (claims 0 (node 10) true ∷ []) 1 client Flood
        ≡ record { pass = false; claim = false } }
    ensures same_lan { verdict_from_mesh (node 10) (claims 0 (node 10) true ∷ []) 1 client SameLan
        ≡ record { pass = false; claim = false } }
    ensures same_lan_of_nobody { verdict_from_mesh (node 10) [] 1 client SameLan
        ≡ record { pass = false; claim = false } }
{}

/// A claim in VLAN 7 on LAN 1, an announcement of three claims, and what a gateway reads of them, of
/// a claim that is cut, and of a client frame.
pub fn gateways_agree_by_frames()
    ensures claim { claim_spelling true 1 (node 10) (record client { vid = vlan 7 })
        ≡ 255 ∷ 67 ∷ 5 ∷ 0 ∷ 0 ∷ 1 ∷ 2 ∷ 0 ∷ 0 ∷ 0 ∷ 0 ∷ 10 ∷ 136 ∷ 182
        ∷ 2 ∷ 0 ∷ 0 ∷ 0 ∷ 1 ∷ 1 ∷ 128 ∷ 7 ∷ [] }
    ensures announcement { announce_spelling 1 (node 10) 3
        ≡ 255 ∷ 67 ∷ 5 ∷ 2 ∷ 0 ∷ 1 ∷ 2 ∷ 0 ∷ 0 ∷ 0 ∷ 0 ∷ 10 ∷ 136 ∷ 182
        ∷ 0 ∷ 0 ∷ 0 ∷ 3 ∷ [] }
    ensures read { lan_message_of (claim_spelling true 1 (node 10) client)
        ≡ Claims true (node 10) client }
    ensures given_up { lan_message_of (claim_spelling false 1 (node 10) client)
        ≡ Claims false (node 10) client }
    ensures told { lan_message_of (announce_spelling 1 (node 10) 3) ≡ Nothing }
    ensures cut { lan_message_of (255 ∷ 67 ∷ 5 ∷ 0 ∷ 0 ∷ 1 ∷ 2 ∷ 0 ∷ 0 ∷ 0 ∷ 0 ∷ 10 ∷ 136 ∷ 182
        ∷ 2 ∷ 0 ∷ 0 ∷ 0 ∷ 1 ∷ 1 ∷ 128 ∷ []) ≡ Nothing }
    ensures carried { lan_message_of (payload_spelling (record {
      dst = node 10;
      src = node 11;
      vid = vlan 7;
      text = codes "hi";
    })) ≡ Carries (record {
      dst = node 10;
      src = node 11;
      vid = vlan 7;
      text = codes "hi";
    }) }
{}
