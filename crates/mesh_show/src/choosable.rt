//! What a routing algorithm offers besides its answers, so that a scenario can choose it.

ghost use Rattle.std.specs.Prelude.{◌≡◌, []};
ghost use Rattle.mesh_model.specs.Routes.Algorithms.{queries_of};
ghost use Rattle.mesh_model.specs.declared.line_form.Algorithm.{Algorithm};
ghost use Rattle.mesh_model.specs.declared.line_form.Algorithm.TheVariants as chosen;

use mesh_algo::Algo;
use mesh_base::Mac;
use mesh_iv::Iv;
use mesh_model::Algorithm;
use mesh_v::V;
use std::alloc::Global;

/// A routing algorithm that a scenario can choose.
pub trait Choosable: Algo {
    /// The word that chooses it.
    ghost algorithm: { Algorithm };

    /// The word that chooses it.
    fn algorithm() -> Algorithm
        ensures { result ≡ algorithm };

    /// The algorithm at the node of an address, which has heard nothing.
    fn begin(alloc: Global, me: Mac) -> Self
        ensures { Self.stands result me [] };

    /// A law: its answers are those of the algorithm that this word chooses.
    ghost answers: { queries_of algorithm ≡ Self.queries };
}

impl Choosable for Iv {
    ghost use Rattle.std.specs.Prelude.{refl};

    ghost algorithm = { chosen.Iv };

    ghost answers = { refl };

    fn algorithm() -> Algorithm {
        Algorithm::Iv
    }

    fn begin(alloc: Global, me: Mac) -> Iv {
        Iv::new(alloc, me)
    }
}

impl Choosable for V {
    ghost use Rattle.std.specs.Prelude.{refl};

    ghost algorithm = { chosen.V };

    ghost answers = { refl };

    fn algorithm() -> Algorithm {
        Algorithm::V
    }

    fn begin(alloc: Global, me: Mac) -> V {
        V::new(alloc, me)
    }
}
