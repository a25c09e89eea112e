ghost use Rattle.std.specs.Prelude.{◌≡◌, ◌++◌, ◌∷◌, ◌+◌, ◌*◌, ◌^◌, ◌<◌, map, filter, true, false, [], List, ◌↔◌, OnOk, OnErr, IfSome, IfNone};
ghost use Rattle.mesh_model.specs.Net.Due.{arrivals_by, delivery_at, fate_of_mark, lan_delivery_at};
ghost use Rattle.mesh_model.specs.Net.Mesh.{LanPut};
ghost use Rattle.mesh_model.specs.declared.happening.Happening.{Happening};
ghost use Rattle.mesh_model.specs.Net.Next.{AtMost, Has};
ghost use Rattle.mesh_model.specs.declared.happening.Class.TheVariants.{LinkDelivery, LanDelivery};
ghost use Rattle.mesh_post.specs.Refused.{stays};
ghost use Rattle.mesh_post.specs.Sent.{Gained};
ghost use Rattle.mesh_post.specs.Waiting.{IsEarliest, IsPopped, IsNoneDue, IsSomeDue, Joins, Leaves};

use crate::pattern::{ONCE, TWICE};
use crate::rising::{Rising, is_before, stays};
use mesh_base::{Millis, NoMemory};
use mesh_model::{Class, Happening};
use std::alloc::Global;
use std::collections::BTreeSet;
use std::marker::Model;

/// How long a LAN frame is on its way, in milliseconds.
const LAN_DELAY: Millis = 1;

/// The happenings that are to come. What joins behind all that wait in a list waits there, and what
/// finds no such list waits among the others. So the deliveries of links of one delay share a list,
/// as do the ticks.
#[derive(Debug, Drop)]
pub struct Queue {
    first: Rising,
    second: Rising,
    third: Rising,
    others: BTreeSet<Happening>,
}

impl Model for Queue {
    ghost use Rattle.std.specs.Prelude.{List, ◌++◌};
    ghost use Rattle.mesh_model.specs.declared.happening.Happening.{Happening};

    ghost Value = { List Happening };

    ghost view = { λ q. q.first ++ (q.second ++ (q.third ++ q.others.keys)) };
}

impl Queue {
    /// Nothing is to come.
    pub fn new(alloc: Global) -> Queue
        ensures { result ≡ [] }
    {
        Queue {
            first: Rising::new(alloc),
            second: Rising::new(alloc),
            third: Rising::new(alloc),
            others: BTreeSet::new(alloc),
        }
    }

    /// Lets a happening wait, too.
    #[inline(always)]
    pub fn push(&mut self, h: Happening) -> Result<(), NoMemory>
        ensures ok { OnOk result (Joins h self.old self.new) }
        ensures err { OnErr result (self.new ≡ self.old) }
    {
        if self.first.takes(h) {
            self.first.push(h)?;
        } else if self.second.takes(h) {
            self.second.push(h)?;
        } else if self.third.takes(h) {
            self.third.push(h)?;
        } else {
            self.others.insert(h)?;
        }
        Ok(())
    }

    /// Takes the first happening away, if it is until a moment.
    #[inline(always)]
    pub fn pop_due(&mut self, t: Millis) -> Option<Happening>
        ensures some { IfSome result (IsPopped self.old self.new t) }
        ensures none { IfNone result ((self.new ≡ self.old) × IsNoneDue self.old t) }
    {
        // Most meshes have one delay, so that mostly nothing waits behind the first two lists.
        if are_empty(&self.third, &self.others) {
            return pop_due_of(&mut self.first, &mut self.second, t);
        }
        let h = self.earliest()?;
        if h.moment > t {
            return None;
        }
        self.leave(h);
        Some(h)
    }

    /// Whether a happening waits that is until a moment.
    pub fn is_due(&self, t: Millis) -> bool
        ensures due { result ≡ true → IsSomeDue self.now t }
        ensures none { result ≡ false → IsNoneDue self.now t }
    {
        match self.earliest() {
            None => false,
            Some(h) => h.moment <= t,
        }
    }

    /// Lets the deliveries of the frame at a place wait, by the mark of its turn, the moment of
    /// sending and the delay of its link.
    pub(crate) fn wait(
        &mut self,
        mark: u8,
        place: u32,
        now: Millis,
        delay: Millis,
    ) -> Result<(), NoMemory>
        ensures gained { now + 2 * delay < 2 ^ 64 → OnOk result (Gained self.old self.new
            (map (delivery_at place) (arrivals_by (fate_of_mark mark) now delay))) }
        ensures others { (x : Happening) → (x.class ≡ LinkDelivery → x.place ≡ place → ⊥) →
            Has self.new x ↔ Has self.old x }
    {
        let moment = now.saturating_add(delay);
        if mark == ONCE {
            self.push(delivery(place, moment))?;
        } else if mark == TWICE {
            self.push(delivery(place, moment))?;
            self.push(delivery(place, moment.saturating_add(delay)))?;
        }
        Ok(())
    }

    /// Lets the delivery of the LAN frame at a place wait, which was put at a moment.
    pub(crate) fn wait_on_lan(&mut self, place: u32, moment: Millis) -> Result<(), NoMemory>
        ensures gained { (put : LanPut) → put.moment ≡ moment → moment < 2 ^ 63 →
            OnOk result (Gained self.old self.new (lan_delivery_at place put ∷ [])) }
        ensures others { (x : Happening) → (x.class ≡ LanDelivery → x.place ≡ place → ⊥) →
            Has self.new x ↔ Has self.old x }
    {
        self.push(Happening {
            moment: moment.saturating_add(LAN_DELAY),
            class: Class::LanDelivery,
            place,
        })?;
        Ok(())
    }

    /// Lets the deliveries of frames on links from one place on wait no more, nor those of frames
    /// on LANs from another.
    pub(crate) fn forget(&mut self, frames: usize, puts: usize)
        ensures { self.new ≡ filter (stays frames puts) self.old }
    {
        self.first.forget(frames, puts);
        self.second.forget(frames, puts);
        self.third.forget(frames, puts);
        self.others.retain(|h| stays(*h, frames, puts));
    }

    // The first happening.
    #[inline(always)]
    fn earliest(&self) -> Option<Happening>
        ensures { IsEarliest self.now result }
    {
        let ahead = earlier(self.first.earliest(), self.second.earliest());
        if are_empty(&self.third, &self.others) {
            return ahead;
        }
        earlier(
            ahead,
            earlier(self.third.earliest(), first_of(&self.others)),
        )
    }

    // Takes the first happening away.
    #[inline(always)]
    fn leave(&mut self, h: Happening)
        requires { (x : Happening) → Has self.old x → AtMost h x }
        ensures { Leaves h self.old self.new }
    {
        self.first.leave(h);
        self.second.leave(h);
        if are_empty(&self.third, &self.others) {
            return;
        }
        self.third.leave(h);
        leave(&mut self.others, h);
    }
}

// Takes the first of the happenings that wait here and there away, if it is until a moment.
#[inline(always)]
fn pop_due_of(here: &mut Rising, there: &mut Rising, t: Millis) -> Option<Happening>
    ensures some { IfSome result (IsPopped (here.old ++ there.old) (here.new ++ there.new) t) }
    ensures none { IfNone result ((here.new ≡ here.old) × (there.new ≡ there.old)
        × IsNoneDue (here.old ++ there.old) t) }
{
    match (here.earliest(), there.earliest()) {
        (None, None) => None,
        (Some(a), None) => here.pop_due(a, t),
        (None, Some(b)) => there.pop_due(b, t),
        (Some(a), Some(b)) => {
            if is_before(a, b) {
                return here.pop_due(a, t);
            }
            if is_before(b, a) {
                return there.pop_due(b, t);
            }
            if a.moment > t {
                return None;
            }
            here.leave(a);
            there.leave(a);
            Some(a)
        }
    }
}

// Whether nothing waits here or there.
#[inline(always)]
fn are_empty(here: &Rising, there: &BTreeSet<Happening>) -> bool
    ensures { result ≡ true → here.now ++ there.now.keys ≡ [] }
{
    here.is_empty() && there.is_empty()
}

// The earlier of two that are the first ones of those that wait here and there.
fn earlier(here: Option<Happening>, there: Option<Happening>) -> Option<Happening>
    ensures { (xs ys : List Happening) → IsEarliest xs here → IsEarliest ys there →
        IsEarliest (xs ++ ys) result }
{
    match (here, there) {
        (None, _) => there,
        (Some(_), None) => here,
        (Some(a), Some(b)) => { if is_before(b, a) { there } else { here } }
    }
}

// The first happening.
fn first_of(waiting: &BTreeSet<Happening>) -> Option<Happening>
    ensures { IsEarliest waiting.now.keys result }
{
    match waiting.first() {
        None => None,
        Some(first) => Some(*first),
    }
}

// Takes a happening away that is after none of those that wait.
fn leave(waiting: &mut BTreeSet<Happening>, h: Happening)
    requires { (x : Happening) → Has waiting.old.keys x → AtMost h x }
    ensures { Leaves h waiting.old.keys waiting.new.keys }
{
    let Some(first) = waiting.first() else {
        return;
    };
    if is_before(h, *first) {
        return;
    }
    waiting.pop_first();
}

// A delivery of the frame at a place.
fn delivery(place: u32, moment: Millis) -> Happening
    ensures { result ≡ delivery_at place moment }
{
    Happening {
        moment,
        class: Class::LinkDelivery,
        place,
    }
}
