ghost use Rattle.std.specs.Prelude.{◌≡◌, ℕ, List, drop, take};
ghost use Rattle.mesh_post.specs.Refused.{IsMark, TakesBack, with_turns};

use crate::frames::Frames;
use crate::post::Post;
use crate::turns::take_turn;

/// What is kept at a moment, as far as acts change it: how many frames, LAN frames and sendings of
/// the step there are, and their bytes. The turns of links are taken back frame by frame.
#[derive(Clone, Copy, Debug)]
pub(crate) struct Mark {
    pub frames: usize,
    pub puts: usize,
    pub fresh: usize,
    pub bytes: u64,
}

impl Post {
    // A mark of what is kept.
    pub(crate) fn mark(&self) -> Mark
        ensures { IsMark self.now result }
    {
        Mark {
            frames: self.frames.len(),
            puts: self.puts.len(),
            fresh: self.fresh.len(),
            bytes: self.bytes,
        }
    }

    // Takes back what was entered since a mark.
    pub(crate) fn take_back(&mut self, mark: Mark)
        ensures { TakesBack mark self.old self.new }
    {
        take_frames(&mut self.frames, &mut self.turns, mark.frames);
        self.puts.truncate(mark.puts);
        self.fresh.truncate(mark.fresh);
        self.queue.forget(mark.frames, mark.puts);
        self.bytes = mark.bytes;
    }
}

// Takes back the frames from a place on, the last one first, and the turns of their links.
fn take_frames(frames: &mut Frames, turns: &mut Vec<u32>, place: usize)
    ensures frames { frames.new ≡ take place frames.old }
    ensures turns { (before : List ℕ) →
        turns.old.items ≡ with_turns (drop place frames.old) before →
        turns.new.items ≡ before }
{
    while frames.len() > place {
        if let Some(frame) = frames.pop() {
            take_turn(turns, frame.link);
        }
    }
}
