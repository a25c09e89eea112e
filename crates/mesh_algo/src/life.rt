ghost use Rattle.std.specs.Prelude.{◌≡◌, ℕ, ◌∷◌, ◌||◌, nat_lt, is_none, List, None, Some, if◌then◌else◌};
ghost use Rattle.mesh_model.specs.Routes.Life.{HeardOgm, is_wild, meeting};
ghost use Rattle.mesh_model.specs.Routes.Numbers.{window};
ghost use Rattle.mesh_algo.specs.LifeRows.{forwarded_by, life_at, life_row, life_with, newest_by, restarted_by, touched};

use crate::far::{is_far, may_begin};
use crate::seq_window::SeqWindow;
use mesh_base::Millis;
use mesh_model::Meeting;

/// How long an originator lives after a hearing, in milliseconds.
const LIFE_SPAN: Millis = 200_000;

/// The life of an originator up to its last hearing.
#[derive(Clone, Copy, Debug)]
pub struct Life {
    /// When it was heard last.
    pub last: Millis,
    /// The newest number.
    pub newest: u32,
    /// The numbers that were sent on.
    pub forwarded: SeqWindow,
    /// The moment of the restart with which it began, if it began with one.
    pub restarted: Option<Millis>,
}

impl Life {
    /// The life, if it is one at a moment.
    pub fn at(&self, now: Millis) -> Option<Life>
        ensures { result ≡ life_at now self.now }
    {
        (now.saturating_sub(self.last) < LIFE_SPAN).then_some(*self)
    }

    /// The life with a hearing more that counts for it alone.
    pub fn touched(&self, now: Millis) -> Life
        ensures { result ≡ touched now self.now }
    {
        Life {
            last: now,
            newest: self.newest,
            forwarded: self.forwarded,
            restarted: self.restarted,
        }
    }
}

/// The newest number of a life, 0 where there is none.
pub fn newest_of(life: &Option<Life>) -> u32
    ensures { result ≡ newest_by life.now }
{
    match life {
        None => 0,
        Some(life) => life.newest,
    }
}

/// The numbers that were sent on in a life.
pub fn forwarded_of(life: &Option<Life>) -> SeqWindow
    ensures { result ≡ forwarded_by life.now }
{
    match life {
        None => SeqWindow::new(),
        Some(life) => life.forwarded,
    }
}

/// The moment of the restart with which a life began, if it began with one.
pub fn restarted_of(life: &Option<Life>) -> Option<Millis>
    ensures { result ≡ restarted_by life.now }
{
    match life {
        None => None,
        Some(life) => life.restarted,
    }
}

/// How a number that comes at a moment meets the life of its originator.
pub fn meeting(now: Millis, seq: u32, life: &Option<Life>) -> Meeting
    ensures { (alive : List HeardOgm) → life.now ≡ life_row alive →
        result ≡ meeting now seq alive }
{
    if !is_wild(seq, life) {
        return Meeting {
            late: false,
            restart: false,
        };
    }
    let restart = may_begin(now, restarted_of(life));
    Meeting {
        late: !restart,
        restart,
    }
}

// Whether a number is wild in the life of its originator.
fn is_wild(seq: u32, life: &Option<Life>) -> bool
    ensures { (alive : List HeardOgm) → life.now ≡ life_row alive → result ≡ is_wild seq alive }
{
    life.is_some() && is_far(seq, newest_of(life))
}

/// The life that a hearing goes on with: none where it is a restart.
pub fn going_on(life: Option<Life>, met: Meeting) -> Option<Life>
    ensures { result ≡ (if met.restart then None else life) }
{
    if met.restart { None } else { life }
}

/// Whether a number that isn't late begins a life or raises its newest.
pub fn is_accepted(seq: u32, life: &Option<Life>) -> bool
    ensures { result ≡ (is_none life.now || nat_lt (newest_by life.now) seq) }
{
    life.is_none() || newest_of(life) < seq
}

/// When the life with a hearing more began with a restart, if it did.
pub fn restarted_then(now: Millis, met: Meeting, life: &Option<Life>) -> Option<Millis>
    ensures { result ≡ (if met.restart then Some now else restarted_by life.now) }
{
    if met.restart {
        Some(now)
    } else {
        restarted_of(life)
    }
}

/// The life with a number more that isn't late.
pub fn life_after(
    now: Millis,
    seq: u32,
    restarted: Option<Millis>,
    life: &Option<Life>,
    sent_on: bool,
) -> Life
    ensures { result ≡ life_with now seq restarted life.now sent_on }
{
    Life {
        last: now,
        newest: newest_of(life).max(seq),
        forwarded: forwarded_after(seq, life, sent_on),
        restarted,
    }
}

// The numbers that were sent on in a life, with one more if it is sent on.
fn forwarded_after(seq: u32, life: &Option<Life>, sent_on: bool) -> SeqWindow
    ensures { result ≡ (if sent_on then window (seq ∷ forwarded_by life.now)
        else forwarded_by life.now) }
{
    let mut forwarded = forwarded_of(life);
    if sent_on {
        forwarded.see(seq);
    }
    forwarded
}
