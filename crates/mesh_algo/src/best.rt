ghost use Rattle.std.specs.Prelude.{◌≡◌};
ghost use Rattle.mesh_algo.specs.Walk.{better_row, is_best, is_better};

use mesh_base::Mac;

/// A neighbour and the score of the path over it.
#[derive(Clone, Copy, Debug)]
pub struct Best {
    pub from: Mac,
    pub score: u32,
}

/// Whether a neighbour of a score is better than what is best, in a tie that of the smaller address.
pub fn is_better(best: &Option<Best>, from: Mac, score: u32) -> bool
    ensures { result ≡ is_better best.now from score }
{
    match best {
        None => score > 0,
        Some(best) => {
            best.score < score || (best.score == score && from.cmp(&best.from).is_lt())
        }
    }
}

/// The better of the two.
pub fn better(best: Option<Best>, from: Mac, score: u32) -> Option<Best>
    ensures { result ≡ better_row best from score }
{
    if is_better(&best, from, score) {
        Some(Best { from, score })
    } else {
        best
    }
}

/// Whether the best neighbour is this one.
pub fn is_best(from: Mac, best: &Option<Best>) -> bool
    ensures { result ≡ is_best from best.now }
{
    match best {
        None => false,
        Some(best) => best.from == from,
    }
}
