ghost use Rattle.std.specs.Prelude.{◌≡◌, [], ◌∷◌};
ghost use Rattle.mesh_model.specs.Routes.Numbers.{window};
ghost use Rattle.node_ground.specs.BroadcastsStand.{next_round};

use mesh_algo::SeqWindow;
use mesh_algo::far::{is_far, may_begin};
use mesh_base::Millis;

/// A round of the broadcasts that are taken from an originator.
#[derive(Clone, Copy, Debug)]
pub(crate) struct Round {
    /// The numbers that were taken in it.
    pub(crate) numbers: SeqWindow,
    /// When it began with a far number, if it did.
    pub(crate) wild: Option<Millis>,
}

impl Round {
    /// The round that begins with a number.
    pub(crate) fn new(number: u32, wild: Option<Millis>) -> Round
        ensures { result ≡ record { numbers = window (number ∷ []); wild = wild } }
    {
        let mut numbers = SeqWindow::new();
        numbers.see(number);
        Round { numbers, wild }
    }

    /// The round with a number that is taken at a moment: a new one where the number is far; none
    /// where it isn't taken.
    pub(crate) fn with(&self, now: Millis, number: u32) -> Option<Round>
        ensures { result ≡ next_round now number self.now }
    {
        if is_far(number, self.numbers.greatest()) {
            return may_begin(now, self.wild).then_some(Round::new(number, Some(now)));
        }
        if self.numbers.has(number) {
            return None;
        }
        let mut next = *self;
        next.numbers.see(number);
        Some(next)
    }
}
