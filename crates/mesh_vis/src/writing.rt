ghost use Rattle.std.specs.Prelude.{◌≡◌, ◌≤◌, ◌++◌, flat_map, length, OnErr, OnOk};
ghost use Rattle.mesh_model.specs.Packets.BodySpellings.{key_spelling};
ghost use Rattle.mesh_model.specs.Packets.Pictures.{neighbour_spelling, picture_spelling};

use crate::layout::{MOST_CLIENTS, MOST_NEIGHBOURS, NEIGHBOUR_SIZE};
use mesh_base::{Key, Mac, NoMemory};
use mesh_tvlv::key_bytes;

// A neighbour in bytes: its address, then its metric.
fn neighbour_bytes(neighbour: (Mac, u32)) -> [u8; NEIGHBOUR_SIZE]
    ensures { result ≡ neighbour_spelling neighbour }
{
    let (router, metric) = neighbour;
    let [a, b, c, d, e, f] = router.0;
    let [first, second, third, fourth] = metric.to_be_bytes();
    [a, b, c, d, e, f, first, second, third, fourth]
}

// Appends neighbours.
fn put_neighbours(out: &mut Vec<u8>, rows: &[(Mac, u32)]) -> Result<(), NoMemory>
    ensures { OnOk result (out.new.items
        ≡ out.old.items ++ flat_map neighbour_spelling rows.now) }
{
    for row in rows {
        out.extend_from_slice(&neighbour_bytes(*row))?;
    }
    Ok(())
}

// Appends clients.
fn put_clients(out: &mut Vec<u8>, keys: &[Key]) -> Result<(), NoMemory>
    ensures { OnOk result (out.new.items ≡ out.old.items ++ flat_map key_spelling keys.now) }
{
    for key in keys {
        out.extend_from_slice(&key_bytes(*key))?;
    }
    Ok(())
}

/// Appends a picture: a node's neighbours, each with the metric of the route to it, and its clients.
/// Refused, nothing is appended.
pub fn write_vis(out: &mut Vec<u8>, rows: &[(Mac, u32)], keys: &[Key]) -> Result<(), NoMemory>
    requires few_rows { length rows.now ≤ MOST_NEIGHBOURS }
    requires few_keys { length keys.now ≤ MOST_CLIENTS }
    ensures ok { OnOk result (out.new.items ≡ out.old.items
        ++ picture_spelling (record { neighbours = rows.now; clients = keys.now })) }
    ensures err { OnErr result (out.new.items ≡ out.old.items) }
{
    let mut picture = Vec::new(*out.allocator());
    picture.push(rows.len() as u8)?;
    put_neighbours(&mut picture, rows)?;
    picture.push(keys.len() as u8)?;
    put_clients(&mut picture, keys)?;
    out.extend_from_slice(picture.as_slice())?;
    Ok(())
}
