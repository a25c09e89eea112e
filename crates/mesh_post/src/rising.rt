ghost use Rattle.std.specs.Prelude.{◌≡◌, ◌<◌, ◌↔◌, ◌++◌, [], ◌∷◌, true, filter, OnOk, OnErr, Some, IfSome, IfNone};
ghost use Rattle.std.specs.VecDeque.{deque_capacity, deque_len};
ghost use Rattle.mesh_model.specs.declared.happening.Happening.{Happening};
ghost use Rattle.mesh_model.specs.Net.Happenings.{Before, is_before};
ghost use Rattle.mesh_model.specs.Net.Next.{AtMost, Has};
ghost use Rattle.mesh_post.specs.Refused.{stays};
ghost use Rattle.mesh_post.specs.Waiting.{IsEarliest, IsPopped, IsRising, Leaves};

use mesh_base::{Millis, NoMemory};
use mesh_model::{Class, Happening};
use std::alloc::Global;
use std::collections::VecDeque;
use std::marker::Model;

/// Happenings that joined in their order: the first that joined is the first to come.
#[derive(Debug, Drop)]
pub struct Rising {
    waiting: VecDeque<Happening>,
    ghost rising: { IsRising waiting.items },
}

impl Model for Rising {
    ghost use Rattle.std.specs.Prelude.{List};
    ghost use Rattle.mesh_model.specs.declared.happening.Happening.{Happening};

    ghost Value = { List Happening };

    ghost view = { λ r. r.waiting.items };
}

impl Rising {
    /// Nothing is to come.
    pub fn new(alloc: Global) -> Rising
        ensures { result ≡ [] }
    {
        Rising {
            waiting: VecDeque::new(alloc),
        }
    }

    /// Whether a happening comes behind all that wait.
    #[inline(always)]
    pub fn takes(&self, h: Happening) -> bool
        ensures { result ≡ true → (x : Happening) → Has self.now x → Before x h }
    {
        match self.waiting.back() {
            None => true,
            Some(last) => is_before(*last, h),
        }
    }

    /// Lets a happening wait behind the others.
    #[inline(always)]
    pub fn push(&mut self, h: Happening) -> Result<(), NoMemory>
        requires { (x : Happening) → Has self.old x → Before x h }
        ensures ok { OnOk result (self.new ≡ self.old ++ h ∷ []) }
        ensures err { OnErr result (self.new ≡ self.old) }
    {
        make_room(&mut self.waiting)?;
        self.waiting.push_back_reserved(h);
        Ok(())
    }

    /// Whether nothing is to come.
    #[inline(always)]
    pub fn is_empty(&self) -> bool
        ensures { (result ≡ true) ↔ (self.now ≡ []) }
    {
        self.waiting.is_empty()
    }

    /// The first happening.
    #[inline(always)]
    pub fn earliest(&self) -> Option<Happening>
        ensures { IsEarliest self.now result }
    {
        match self.waiting.front() {
            None => None,
            Some(first) => Some(*first),
        }
    }

    /// Takes a happening away that is after none of those that wait.
    #[inline(always)]
    pub fn leave(&mut self, h: Happening)
        requires { (x : Happening) → Has self.old x → AtMost h x }
        ensures { Leaves h self.old self.new }
    {
        let Some(first) = self.earliest() else {
            return;
        };
        if is_before(h, first) {
            return;
        }
        self.waiting.pop_front();
    }

    /// Takes the first happening away, which is known, if it is until a moment.
    #[inline(always)]
    pub fn pop_due(&mut self, first: Happening, t: Millis) -> Option<Happening>
        requires { IsEarliest self.old (Some first) }
        ensures some { IfSome result (λ h. (h ≡ first) × IsPopped self.old self.new t h) }
        ensures none { IfNone result ((self.new ≡ self.old) × (t < first.moment)) }
    {
        if first.moment > t {
            return None;
        }
        self.waiting.pop_front();
        Some(first)
    }

    /// Lets the deliveries of frames on links from one place on wait no more, nor those of frames
    /// on LANs from another.
    pub fn forget(&mut self, frames: usize, puts: usize)
        ensures { self.new ≡ filter (stays frames puts) self.old }
    {
        self.waiting.retain(|h| stays(*h, frames, puts));
    }
}

// Makes room for one more happening. What is called where there is none is too large to be put in
// line.
#[inline(always)]
fn make_room(waiting: &mut VecDeque<Happening>) -> Result<(), NoMemory>
    ensures items { waiting.new.items ≡ waiting.old.items }
    ensures room { OnOk result (deque_len waiting.new < deque_capacity waiting.new) }
{
    if waiting.len() == waiting.capacity() {
        waiting.reserve(1)?;
    }
    Ok(())
}

/// Whether a happening comes before another.
pub fn is_before(a: Happening, b: Happening) -> bool
    ensures { result ≡ is_before a b }
{
    a.cmp(&b).is_lt()
}

/// Whether a happening is no delivery of a frame on a link from one place on, or of one on a LAN
/// from another.
pub fn stays(h: Happening, frames: usize, puts: usize) -> bool
    ensures { result ≡ stays frames puts h }
{
    match h.class {
        Class::LinkDelivery => (h.place as usize) < frames,
        Class::LanDelivery => (h.place as usize) < puts,
        Class::NodeTick => true,
    }
}
