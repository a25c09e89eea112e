ghost use Rattle.std.specs.Prelude.{◌≡◌};
ghost use Rattle.mesh_v.specs.Rows.{blank, path_with, value_in};

use mesh_algo::SeqWindow;

/// How many numbers below the originator's newest one still count.
const COUNTED: u32 = 5;

/// What was heard of an originator from a neighbour in the originator's life.
#[derive(Clone, Copy, Debug)]
pub(crate) struct Path {
    /// The numbers heard.
    pub(crate) heard: SeqWindow,
    /// The value of the greatest of them, 0 where there is none.
    pub(crate) value: u32,
}

impl Path {
    /// Nothing heard.
    pub(crate) fn new() -> Path
        ensures { result ≡ blank }
    {
        Path {
            heard: SeqWindow::new(),
            value: 0,
        }
    }

    /// The path with a number more, that wasn't heard before, and its value.
    pub(crate) fn with(&self, seq: u32, value: u32) -> Path
        ensures { result ≡ path_with self.now seq value }
    {
        let value = if self.heard.greatest() <= seq {
            value
        } else {
            self.value
        };
        let mut heard = self.heard;
        heard.see(seq);
        Path { heard, value }
    }

    /// What the greatest number is worth, while it is among the newest five of the originator.
    pub(crate) fn value(&self, newest: u32) -> u32
        ensures { result ≡ value_in newest self.now }
    {
        if newest.saturating_sub(self.heard.greatest()) < COUNTED {
            self.value
        } else {
            0
        }
    }
}
