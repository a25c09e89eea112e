ghost use Rattle.std.specs.Prelude.{◌≡◌, List, option_map};
ghost use Rattle.mesh_model.specs.Knowledge.FactStore.{open_request};
ghost use Rattle.mesh_model.specs.Knowledge.Served.{FactRequest};
ghost use Rattle.alfred_store.specs.RequestsStand.{RequestsStand};
ghost use Rattle.alfred_store.specs.Answers.{answered, answer_with, closed_with, facts_in};

use crate::requests::Requests;
use alfred_core::{FactList, Txn};
use mesh_base::Mac;

/// What answers a request: the type that it is for, and the facts that came.
#[derive(Debug, Drop)]
pub struct Answer {
    pub type_no: u8,
    pub facts: FactList,
}

// The answer to an open request that a message of a sender under an id makes whole, by what there
// is of the transaction then. The request is closed.
pub(crate) fn answer_of(requests: &mut Requests, sender: Mac, id: u16, txn: Txn) -> Option<Answer>
    ensures told { (asked : List FactRequest) → RequestsStand requests.old asked →
        option_map answered result ≡ answer_with (open_request asked sender id) (facts_in txn) }
    ensures closed { (asked : List FactRequest) → RequestsStand requests.old asked →
        RequestsStand requests.new (closed_with sender id (facts_in txn) asked) }
{
    let Txn::Whole(facts) = txn else {
        return None;
    };
    let type_no = requests.close(sender, id)?;
    Some(Answer { type_no, facts })
}
