//! Pictures and facts in JSON.

ghost use Rattle.std.specs.Prelude.{◌≡◌, map, option_map, IfOk};
ghost use Rattle.serde_json.specs.View.{view};
ghost use Rattle.mesh_model.specs.Text.Pictures.{client_data, fact_data, list_data, neighbour_data, network_data, picture_data};

use crate::layout::PICTURE_TYPE;
use crate::text::{client_string, mac_string};
use crate::view::{VisView, read_vis};
use mesh_base::{Mac, NoMemory};
use mesh_model::{Fact, KeptFact};
use serde_json::{Value, json};
use std::alloc::Global;

// A neighbour: its metric and its address.
fn neighbour_value(alloc: Global, router: Mac, metric: u32) -> Result<Value, NoMemory>
    ensures { IfOk result (λ value. view value ≡ neighbour_data (router, metric)) }
{
    let router = mac_string(alloc, router)?;
    Ok(json!(in alloc; {"metric": metric, "router": router})?)
}

// The neighbours of a picture.
fn neighbours_value(alloc: Global, picture: &VisView<'_>) -> Result<Value, NoMemory>
    ensures { IfOk result (λ value.
        view value ≡ list_data (map neighbour_data picture.now.neighbours)) }
{
    let mut items = Vec::new(alloc);
    for i in 0..picture.neighs() {
        let (router, metric) = picture.neigh_at(i).unwrap();
        items.push(neighbour_value(alloc, router, metric)?)?;
    }
    Ok(Value::Array(items))
}

// The clients of a picture.
fn clients_value(alloc: Global, picture: &VisView<'_>) -> Result<Value, NoMemory>
    ensures { IfOk result (λ value.
        view value ≡ list_data (map client_data picture.now.clients)) }
{
    let mut items = Vec::new(alloc);
    for i in 0..picture.clients() {
        let client = client_string(alloc, picture.client_at(i).unwrap())?;
        items.push(Value::from(client))?;
    }
    Ok(Value::Array(items))
}

// A picture of a node.
fn picture_value(alloc: Global, node: Mac, picture: &VisView<'_>) -> Result<Value, NoMemory>
    ensures { IfOk result (λ value. view value ≡ picture_data node picture.now) }
{
    let clients = clients_value(alloc, picture)?;
    let neighbours = neighbours_value(alloc, picture)?;
    let node = mac_string(alloc, node)?;
    Ok(json!(in alloc; {"clients": clients, "neighbors": neighbours, "node": node})?)
}

// A fact, where it is a picture.
fn fact_value(alloc: Global, fact: &Fact) -> Result<Option<Value>, NoMemory>
    ensures { IfOk result (λ found. option_map view found ≡ fact_data fact.now) }
{
    if fact.type_no != PICTURE_TYPE {
        return Ok(None);
    }
    let Some(picture) = read_vis(fact.bytes.as_slice()) else {
        return Ok(None);
    };
    let value = picture_value(alloc, fact.source, &picture)?;
    Ok(Some(value))
}

/// The pictures among facts.
pub(crate) fn network_value(alloc: Global, rows: &[&KeptFact]) -> Result<Value, NoMemory>
    ensures { IfOk result (λ value.
        view value ≡ network_data (map (λ kept. kept.now.fact) rows.now)) }
{
    let mut items = Vec::new(alloc);
    for kept in rows {
        if let Some(value) = fact_value(alloc, &kept.fact)? {
            items.push(value)?;
        }
    }
    Ok(Value::Array(items))
}
