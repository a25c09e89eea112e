ghost use Rattle.std.specs.Prelude.{◌≡◌, ◌%◌, length, slice_index_or};
ghost use Rattle.mesh_model.specs.Scenario.Terms.{held_mark};

use mesh_base::Bytes;
use std::marker::Model;

/// The mark of a frame that is delivered once.
pub(crate) const ONCE: u8 = b'.';
/// The mark of a frame that is delivered twice.
pub(crate) const TWICE: u8 = b'2';
/// The mark of a frame that is held.
const HELD: u8 = b'h';

/// The marks of the frames of a link, which begin anew behind the last. Most links have one mark,
/// which is kept beside the link then, and not in memory of its own.
#[derive(Debug, Drop)]
pub struct Pattern {
    marks: Marks,
}

#[derive(Debug, Drop)]
pub(crate) enum Marks {
    One(u8),
    Others(Bytes),
}

impl Model for Pattern {
    ghost use Rattle.std.specs.Prelude.{ℕ, List};
    ghost use Rattle.mesh_post.specs.Inner.Patterns.{marks_in};

    ghost Value = { List ℕ };

    ghost view = { λ p. marks_in p.marks };
}

impl Pattern {
    /// The pattern of these marks.
    pub fn new(marks: Bytes) -> Pattern
        ensures { result ≡ marks }
    {
        let marks = match marks.as_slice() {
            [mark] => Marks::One(*mark),
            _ => Marks::Others(marks),
        };
        Pattern { marks }
    }

    // The mark of the frame of a turn.
    pub(crate) fn mark(&self, turn: u32) -> u8
        ensures { result ≡ slice_index_or self.now (turn % length self.now) held_mark }
    {
        match &self.marks {
            Marks::One(mark) => *mark,
            Marks::Others(marks) => match marks.as_slice() {
                [] => HELD,
                marks => marks[turn as usize % marks.len()],
            },
        }
    }
}
