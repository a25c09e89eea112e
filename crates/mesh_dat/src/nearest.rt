//! Which nodes keep a pair.

ghost use Rattle.std.specs.Prelude.{◌≡◌, ◌<◌, ◌%◌, ◌^◌, ℕ, List, Some, slice_get};
ghost use Rattle.mesh_base.specs.declared.address.Mac.{Mac};
ghost use Rattle.mesh_model.specs.Services.ArpTable.{candidates_of, distance, insert_near, is_nearer, nearest, node_place, pair_place};
ghost use Rattle.mesh_dat.specs.Candidates.{first_three};

use mesh_base::{Mac, Vid};
use tt_table::crc32c;

// The place of a number on the ring of 65,536 places.
fn place_of(number: u32) -> u16
    ensures { result ≡ number % 2 ^ 16 }
{
    (number % 65_536) as u16
}

// The place of a pair.
#[tactic(auto, unfolding(mesh_model::specs::Services::ArpTable::pair_place))]
fn pair_place(ip: u32, vid: Vid) -> u16
    ensures { result ≡ pair_place ip vid }
{
    let [a, b, c, d] = ip.to_be_bytes();
    let [high, low] = vid.0.to_be_bytes();
    place_of(crc32c(&[a, b, c, d, high, low]))
}

// The distance from a place to a node.
#[tactic(auto, unfolding(mesh_model::specs::Services::ArpTable::node_place))]
fn distance(place: u16, node: Mac) -> u16
    ensures { result ≡ distance place node }
{
    let [a, b, c, d, e, f] = node.0;
    place.wrapping_sub(place_of(crc32c(&[a, b, c, d, e, f])))
}

// Whether the first of two nodes is nearer to a place.
fn is_nearer(place: u16, a: Mac, b: Mac) -> bool
    ensures { result ≡ is_nearer place a b }
{
    let (of_a, of_b) = (distance(place, a), distance(place, b));
    of_a < of_b || (of_a == of_b && a < b)
}

// The three that are nearest to a place, the nearest first, with one more node.
#[tactic(auto, using(crate::proofs::NearLemmas::alone, crate::proofs::NearLemmas::before_first, crate::proofs::NearLemmas::before_end, crate::proofs::NearLemmas::before_second, crate::proofs::NearLemmas::behind_third, crate::proofs::NearLemmas::at_end, crate::proofs::NearLemmas::before_third))]
fn with_node(place: u16, near: [Option<Mac>; 3], node: Mac) -> [Option<Mac>; 3]
    ensures { (nodes : List Mac) → near ≡ first_three nodes →
        result ≡ first_three (insert_near place node nodes) }
{
    let [first, second, third] = near;
    let Some(nearest) = first else {
        return [Some(node), None, None];
    };
    if is_nearer(place, node, nearest) {
        return [Some(node), first, second];
    }
    let Some(next) = second else {
        return [first, Some(node), None];
    };
    if is_nearer(place, node, next) {
        return [first, Some(node), second];
    }
    let Some(last) = third else {
        return [first, second, Some(node)];
    };
    if is_nearer(place, node, last) {
        return [first, second, Some(node)];
    }
    near
}

// The three of some nodes that are nearest to a place.
fn nearest_three(place: u16, nodes: &[Mac]) -> [Option<Mac>; 3]
    ensures { result ≡ first_three (nearest place nodes.now) }
{
    let Some((first, rest)) = nodes.split_first() else {
        return [None, None, None];
    };
    with_node(place, nearest_three(place, rest), *first)
}

/// The nodes that keep a pair of an IP address, as a number, and a VLAN: of these the three nearest
/// to it, the nearest first, in a tie that of the smaller address. It takes no memory.
pub fn candidates(ip: u32, vid: Vid, nodes: &[Mac]) -> [Option<Mac>; 3]
    ensures { (i : ℕ) → i < 3 →
        slice_get result i ≡ Some (slice_get (candidates_of ip vid nodes.now) i) }
{
    nearest_three(pair_place(ip, vid), nodes)
}
