ghost use Rattle.std.specs.Prelude.{◌<◌};

use mesh_base::Mac;

/// How many guesses are kept.
const GUESSES: usize = 64;

/// Where the rows of an address stood last. Rows may have moved since: a look-up begins at such a
/// place, and finds a row wherever it stands.
#[derive(Clone, Copy, Debug)]
pub(crate) struct Guess {
    /// Its row as an originator.
    pub(crate) life: u16,
    /// The first of its rows as an originator.
    pub(crate) first: u16,
    /// What was heard of it from itself.
    pub(crate) own: u16,
    /// What came back from it.
    pub(crate) echo: u16,
    /// How far behind the first row of an originator that of this neighbour stands: mostly as far,
    /// whatever the originator, since rows stand in the order of neighbours.
    pub(crate) behind: u16,
}

/// A guess for each address, which those share that end in the same six bits. It takes no memory.
#[derive(Debug, Drop)]
pub(crate) struct Guesses {
    pub(crate) guesses: [Guess; GUESSES],
}

impl Guesses {
    /// All rows stand first.
    pub(crate) fn new() -> Guesses {
        let guess = Guess {
            life: 0,
            first: 0,
            own: 0,
            echo: 0,
            behind: 0,
        };
        Guesses {
            guesses: [guess; GUESSES],
        }
    }

    /// The guess for an address.
    pub(crate) fn of(&self, mac: Mac) -> Guess {
        self.guesses[slot_of(mac)]
    }

    /// Takes the place of the row of an originator.
    pub(crate) fn take_life(&mut self, orig: Mac, life: usize) {
        let guess = &mut self.guesses[slot_of(orig)];
        guess.life = short(life);
    }

    /// Takes the place of the first of the rows of an originator.
    pub(crate) fn take_first(&mut self, orig: Mac, first: usize) {
        let guess = &mut self.guesses[slot_of(orig)];
        guess.first = short(first);
    }

    /// Takes how far behind the first row of an originator that of a neighbour stands.
    pub(crate) fn take_behind(&mut self, from: Mac, behind: usize) {
        let guess = &mut self.guesses[slot_of(from)];
        guess.behind = short(behind);
    }

    /// Takes the places of what was heard of a neighbour from itself, and of what came back from it.
    pub(crate) fn take_neighbour(&mut self, from: Mac, own: usize, echo: usize) {
        let guess = &mut self.guesses[slot_of(from)];
        guess.own = short(own);
        guess.echo = short(echo);
    }
}

// The place of an address among the guesses.
fn slot_of(mac: Mac) -> usize
    ensures { result < 64 }
{
    mac.0[5] as usize % GUESSES
}

// A place as a guess keeps it.
fn short(place: usize) -> u16 {
    u16::try_from(place).unwrap_or(0)
}
