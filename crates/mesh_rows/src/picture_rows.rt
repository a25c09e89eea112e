//! Pictures in bytes and the network in JSON, computed from the definitions alone.

ghost use Rattle.std.specs.Prelude.{◌≡◌, [], ◌∷◌, ◌++◌, codes, length, None, option_map, replicate, Some};
ghost use Rattle.mesh_model.specs.Packets.Pictures.{picture_of_bytes, picture_spelling};
ghost use Rattle.mesh_model.specs.Services.Pictures.{own_picture};
ghost use Rattle.mesh_model.specs.Text.Pictures.{network_text};
ghost use Rattle.mesh_rows.specs.PictureRows.{entry, lone_picture, pictured, row, with_rows};
ghost use Rattle.mesh_rows.specs.ServiceRows.{client, node, told, vlan};

/// A picture is read as it was spelled: counts in one byte, metrics in four.
pub fn a_picture_is_read_as_it_was_spelled()
    ensures spelled { picture_spelling lone_picture
        ≡ 0 ∷ 1 ∷ 2 ∷ 0 ∷ 0 ∷ 0 ∷ 1 ∷ 1 ∷ 0 ∷ 0 ∷ [] }
    ensures read { picture_of_bytes (0 ∷ 1 ∷ 2 ∷ 0 ∷ 0 ∷ 0 ∷ 1 ∷ 1 ∷ 0 ∷ 0 ∷ [])
        ≡ Some lone_picture }
    ensures neighbour { picture_of_bytes (1 ∷ 2 ∷ 0 ∷ 0 ∷ 0 ∷ 0 ∷ 11 ∷ 0 ∷ 0 ∷ 1 ∷ 2 ∷ 0 ∷ [])
        ≡ Some (record { neighbours = (node 11, 258) ∷ []; clients = [] }) }
    ensures empty { picture_of_bytes (0 ∷ 0 ∷ [])
        ≡ Some (record { neighbours = []; clients = [] }) }
{}

/// Bytes are no picture where one is missing or follows; more neighbours and clients than nodes tell
/// are read.
pub fn bytes_are_a_picture_to_the_last()
    ensures nothing { picture_of_bytes [] ≡ None }
    ensures no_clients { picture_of_bytes (0 ∷ []) ≡ None }
    ensures missing { picture_of_bytes (1 ∷ 2 ∷ 0 ∷ 0 ∷ 0 ∷ 0 ∷ 11 ∷ 0 ∷ 0 ∷ 1 ∷ 2 ∷ []) ≡ None }
    ensures behind { picture_of_bytes (0 ∷ 0 ∷ 0 ∷ []) ≡ None }
    ensures neighbours { option_map (λ picture. length picture.neighbours)
        (picture_of_bytes (17 ∷ replicate 171 0)) ≡ Some 17 }
    ensures clients { option_map (λ picture. length picture.clients)
        (picture_of_bytes (0 ∷ 129 ∷ replicate 1032 0)) ≡ Some 129 }
{}

/// A node tells of originators that are reached without another between, of 16 at most, and of 128
/// clients at most.
pub fn a_node_pictures_its_neighbours_and_clients()
    ensures direct { own_picture
        (with_rows (row 11 (Some (node 12)) 5 ∷ row 12 (Some (node 12)) 7 ∷ row 13 None 0 ∷ []))
        [] 0 (entry ∷ [])
        ≡ record { neighbours = (node 12, 7) ∷ []; clients = client ∷ [] } }
    ensures few { length (own_picture (with_rows (replicate 17 (row 11 (Some (node 11)) 5))) [] 0
        []).neighbours ≡ 16 }
    ensures fewer { length (own_picture (with_rows []) [] 0 (replicate 129 entry)).clients ≡ 128 }
{}

/// The network is a list of an object for each fact that is a picture, without spaces, its members
/// in the order of their names.
pub fn the_network_is_one_text()
    ensures none { network_text [] ≡ codes "[]" }
    ensures lone { network_text (pictured 10 [] (client ∷ []) ∷ [])
        ≡ codes "[{\"clients\":[\"02:00:00:00:01:01/-\"],\"neighbors\":[],\"node\":\"02:00:00:00:00:0a\"}]" }
    ensures two { network_text (pictured 10 ((node 11, 144) ∷ []) [] ∷ pictured 11 [] [] ∷ [])
        ≡ codes "[{\"clients\":[],\"neighbors\":[{\"metric\":144,\"router\":\"02:00:00:00:00:0b\"}],\"node\":\"02:00:00:00:00:0a\"},"
        ++ codes "{\"clients\":[],\"neighbors\":[],\"node\":\"02:00:00:00:00:0b\"}]" }
    ensures vlans { network_text (pictured 10 [] (record { mac = client.mac; vid = vlan 7 }
        ∷ record { mac = client.mac; vid = record { 0 = 5 } } ∷ []) ∷ [])
        ≡ codes "[{\"clients\":[\"02:00:00:00:01:01/7\",\"02:00:00:00:01:01/raw:5\"],\"neighbors\":[],\"node\":\"02:00:00:00:00:0a\"}]" }
    ensures left_out { network_text (told 10 1 (codes "x") ∷ told 10 64 (0 ∷ 0 ∷ []) ∷ [])
        ≡ codes "[]" }
{}
