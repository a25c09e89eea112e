ghost use Rattle.std.specs.Prelude.{◌≡◌, ℕ, ◌/◌, ◌<◌, ◌≤◌, List, [], ◌∷◌, ◌++◌, length, slice_get, Some, IfNone, IfOk, IfSome, OnErr, OnOk};
ghost use Rattle.std.specs.BTreeMap.{get};
ghost use Rattle.std.specs.Ordering.{nat_cmp};
ghost use Rattle.mesh_post.specs.Posting.{AreTold, block_size, far_behind, posted_at, sending_by};

use crate::posted::Posted;
use mesh_base::NoMemory;
use std::alloc::Global;
use std::collections::BTreeMap;
use std::marker::Model;

/// How many links a word can tell apart: as many as a net may have.
const LINKS: u32 = 512;
/// How many sendings a base can tell apart: more than a net may have frames.
const SENDINGS: u32 = 8_388_608;
/// How many frames a block has.
const BLOCK: u32 = 64;
/// A sending that is so far behind its base, or further, stands apart.
const FAR: u32 = 127;

/// The frames that were sent on links, in the order of sending. The word of a frame says its link,
/// and how far its sending is behind that of the first frame of its block.
#[derive(Debug, Drop)]
pub struct Frames {
    words: Vec<u16>,
    /// The sending of the first frame of each block.
    bases: Vec<u32>,
    /// The sendings that are too far behind their bases, by the places of their frames.
    far: BTreeMap<u32, u32>,
}

impl Model for Frames {
    ghost use Rattle.std.specs.Prelude.{◌*◌, ◌^◌, ◌≤◌, List, length};
    ghost use Rattle.mesh_post.specs.declared.posted.Posted.{Posted};
    ghost use Rattle.mesh_post.specs.Posting.{AreTold, block_size, posted_from};

    ghost Value = { List Posted };

    ghost view = { λ f. posted_from f.bases.items f.far 0 f.words.items };

    ghost invariant = { λ f. (length f.words.items ≤ 2 ^ 32)
        × (length f.words.items ≤ block_size * length f.bases.items)
        × AreTold f.bases.items };
}

impl Frames {
    /// No frame was sent.
    pub(crate) fn new(alloc: Global) -> Frames
        ensures { result ≡ [] }
    {
        Frames {
            words: Vec::new(alloc),
            bases: Vec::new(alloc),
            far: BTreeMap::new(alloc),
        }
    }

    /// How many there are.
    pub fn len(&self) -> usize
        ensures { result ≡ length self.now }
    {
        self.words.len()
    }

    /// The frame at a place.
    pub(crate) fn get(&self, place: u32) -> Option<Posted>
        ensures { result ≡ slice_get self.now place }
    {
        let word = *self.words.get(place as usize)?;
        Some(read(&self.bases, &self.far, place, word))
    }

    /// Keeps one more frame. A place that is too large would be told as want of memory; the limits
    /// on links and frames are met before.
    pub(crate) fn push(&mut self, posted: Posted) -> Result<(), NoMemory>
        ensures ok { OnOk result (self.new ≡ self.old ++ posted ∷ []) }
        ensures err { OnErr result (self.new ≡ self.old) }
    {
        let Ok(place) = u32::try_from(self.words.len()) else {
            return Err(NoMemory);
        };
        if posted.link >= LINKS {
            return Err(NoMemory);
        }
        let base = base_of(&mut self.bases, place / BLOCK, posted.sending)?;
        let behind = behind_of(&mut self.far, place, base, posted.sending)?;
        self.words.push((behind * LINKS + posted.link) as u16)?;
        Ok(())
    }

    /// Takes the last frame away.
    pub(crate) fn pop(&mut self) -> Option<Posted>
        ensures some { IfSome result (λ posted. self.old ≡ self.new ++ posted ∷ []) }
        ensures none { IfNone result (self.old ≡ []) }
    {
        let word = self.words.pop()?;
        let place = self.words.len() as u32;
        Some(read(&self.bases, &self.far, place, word))
    }
}

// The frame whose word stands at a place.
fn read(bases: &[u32], far: &BTreeMap<u32, u32>, place: u32, word: u16) -> Posted
    requires within { place / block_size < length bases.now }
    requires told { AreTold bases.now }
    ensures { result ≡ posted_at bases.now far.now place word }
{
    let word = u32::from(word);
    let behind = word / LINKS;
    let sending = if behind < FAR {
        bases[(place / BLOCK) as usize] + behind
    } else {
        far.get(&place).copied().unwrap_or(0)
    };
    Posted {
        link: word % LINKS,
        sending,
    }
}

// The base of a block, which its first frame brings.
fn base_of(bases: &mut Vec<u32>, block: u32, sending: u32) -> Result<u32, NoMemory>
    requires { block ≤ length bases.old.items }
    ensures base { IfOk result (λ base. slice_get bases.new.items block ≡ Some base) }
    ensures grown { (more : List ℕ) × (bases.new.items ≡ bases.old.items ++ more) }
    ensures told { AreTold bases.old.items → AreTold bases.new.items }
{
    if let Some(base) = bases.get(block as usize) {
        return Ok(*base);
    }
    if sending >= SENDINGS {
        return Err(NoMemory);
    }
    bases.push(sending)?;
    Ok(sending)
}

// How far behind its base the sending of the frame at a place is. One that is too far is noted.
fn behind_of(
    far: &mut BTreeMap<u32, u32>,
    place: u32,
    base: u32,
    sending: u32,
) -> Result<u32, NoMemory>
    ensures low { IfOk result (λ behind. behind ≤ far_behind) }
    ensures sending { IfOk result (λ behind. sending_by base far.new place behind ≡ sending) }
    ensures others { (other : ℕ) → other < place →
        get nat_cmp far.new other ≡ get nat_cmp far.old other }
{
    match sending.checked_sub(base) {
        Some(behind) if behind < FAR => Ok(behind),
        _ => {
            far.insert(place, sending)?;
            Ok(FAR)
        }
    }
}
