ghost use Rattle.std.specs.Prelude.{◌≡◌, []};

use mesh_model::Act;
use node_ground::{Port, PortErr};
use std::alloc::Global;
use std::marker::Model;

/// Acts that were put, in order. It takes all, while there is memory.
#[derive(Debug, Drop)]
pub struct Acts {
    acts: Vec<Act>,
}

impl Model for Acts {
    ghost use Rattle.std.specs.Prelude.{List};
    ghost use Rattle.mesh_model.specs.declared.act.Act.{Act};

    ghost Value = { List Act };

    ghost view = { λ a. a.acts.items };
}

impl Acts {
    /// No acts.
    pub fn new(alloc: Global) -> Acts
        ensures { result ≡ [] }
    {
        Acts {
            acts: Vec::new(alloc),
        }
    }

    /// The acts.
    pub fn into_vec(self) -> Vec<Act>
        ensures { result.items ≡ self }
    {
        self.acts
    }
}

impl Port for Acts {
    ghost use Rattle.std.specs.Prelude.{◌≡◌, None};
    ghost use Rattle.std.proofs.Common.{refl};
    ghost use Rattle.node_cuts.specs.Collected.{Collects};

    ghost takes = { Collects };

    ghost same = { λ old new. old ≡ new };

    ghost over = { λ _ _. None };

    ghost same_refl = { λ _. refl };

    fn blank(&mut self) -> Vec<u8> {
        Vec::new(*self.acts.allocator())
    }

    fn put(&mut self, act: Act) -> Result<(), PortErr> {
        match self.acts.push(act) {
            Ok(()) => Ok(()),
            Err(_) => Err(PortErr::Memory),
        }
    }
}
