ghost use Rattle.std.specs.Prelude.{◌≡◌};
ghost use Rattle.alfred_store.specs.Shares.{is_shared};

use alfred_core::Mark;

/// Which of its facts a node tells.
#[derive(Clone, Copy, Debug, PartialEq, Eq)]
pub enum Share {
    /// Its own.
    Own,
    /// Those of which it is the source, or that their source told it.
    FirstHand,
}

impl Share {
    /// Whether a fact of a mark is among them.
    pub(crate) fn has(self, mark: Mark) -> bool
        ensures { result ≡ is_shared self mark }
    {
        match (self, mark) {
            (_, Mark::Local) | (Share::FirstHand, Mark::First) => true,
            (Share::Own, Mark::First) | (_, Mark::Synced) => false,
        }
    }
}
