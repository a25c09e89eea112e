ghost use Rattle.std.specs.Prelude.{◌≡◌, ◌≤◌, [], ◌∷◌, length, max};
ghost use Rattle.mesh_model.specs.Routes.Numbers.{has, greatest, seen_among, window, window_length};
ghost use Rattle.mesh_algo.specs.Words.{newest_of, shifted_word};

use std::marker::Model;

/// How many numbers a window reaches back, its newest counted.
const WINDOW: u32 = u64::BITS;

/// The sequence numbers seen that are less than 64 below the newest of them. It takes no memory.
#[derive(Clone, Copy, Debug)]
pub struct SeqWindow {
    /// Bit i says that the number i below the newest was seen.
    word: u64,
    /// The newest number, 0 before the first.
    newest: u32,
}

impl Model for SeqWindow {
    ghost use Rattle.std.specs.Prelude.{ℕ, List};
    ghost use Rattle.mesh_model.specs.Routes.Numbers.{greatest};
    ghost use Rattle.mesh_algo.specs.Words.{numbers_of, word_of, IsWord};
    ghost use Rattle.mesh_algo.specs.WordBack.{newest_back, word_back};

    ghost Value = { List ℕ };

    ghost view = { λ a. numbers_of a.newest a.word };

    ghost invariant = { λ a. IsWord a.newest a.word };

    ghost inverse = { λ numbers. record { word = word_of numbers; newest = greatest numbers } };

    ghost inverse_ok = { λ a is_word i. record {
      word = word_back a.newest a.word is_word i;
      newest = newest_back a.newest a.word is_word i;
    } };
}

impl SeqWindow {
    /// Nothing seen.
    pub fn new() -> SeqWindow
        ensures { result ≡ [] }
    {
        SeqWindow { word: 0, newest: 0 }
    }

    /// Sees a number.
    pub fn see(&mut self, s: u32)
        ensures { self.new ≡ window (s ∷ self.old) }
    {
        if s > self.newest {
            self.word = shifted(self.word, s - self.newest) | 1;
            self.newest = s;
        } else if self.newest - s < WINDOW {
            self.word |= 1 << (self.newest - s);
        }
    }

    /// Whether a number was seen.
    pub fn has(&self, s: u32) -> bool
        ensures { result ≡ has s self.now }
    {
        if s > self.newest || self.newest - s >= WINDOW {
            return false;
        }
        (self.word >> (self.newest - s)) & 1 == 1
    }

    /// How many numbers it has.
    pub fn count(&self) -> u32
        ensures { result ≡ length self.now }
    {
        self.word.count_ones()
    }

    /// How many of its numbers are among the 64 up to this one, or to its newest if that is above
    /// it.
    pub fn count_to(&self, top: u32) -> u32
        ensures counted { result
            ≡ length (seen_among (max top (greatest self.now)) window_length self.now) }
        ensures few { result ≤ 64 }
    {
        shifted(self.word, top.saturating_sub(self.newest)).count_ones()
    }

    /// The newest number, 0 where nothing was seen.
    pub fn greatest(&self) -> u32
        ensures { result ≡ greatest self.now }
    {
        self.newest
    }

    /// The newest number.
    pub fn newest(&self) -> Option<u32>
        ensures { result ≡ newest_of self.now }
    {
        if self.word == 0 {
            None
        } else {
            Some(self.newest)
        }
    }
}

// A word whose bits are further from the newest number.
fn shifted(word: u64, by: u32) -> u64
    ensures { result ≡ shifted_word word by }
{
    if by < WINDOW { word << by } else { 0 }
}
