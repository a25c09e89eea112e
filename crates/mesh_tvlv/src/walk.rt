ghost use Rattle.std.specs.Prelude.{◌≡◌, ◌↔◌, ◌∷◌, [], IsNone, IfNone, IfSome, MatchOption, IfOk, IfErr, OnErr, option_map};
ghost use Rattle.mesh_model.specs.Packets.Containers.{first_container};
ghost use Rattle.mesh_tvlv.specs.Walk.{seen, walk_over, to_come, behind, stopped, HasEnded, IsAtCut};

use crate::layout::{HEADER_SIZE, LENGTH_OFFSET};
use byteorder::{BigEndian, ByteOrder};
use mesh_model::TvlvErr;
use std::marker::Model;

/// A container: its type, the version of its type, and its body where it lies.
#[derive(Clone, Copy, Debug, PartialEq, Eq)]
pub struct Container<'a> {
    pub kind: u8,
    pub version: u8,
    pub body: &'a [u8],
}

/// The first container of these bytes, or `None` where they begin no whole one.
fn first_container(bytes: &[u8]) -> Option<Container<'_>>
    ensures { option_map seen result ≡ first_container bytes.now }
{
    if bytes.len() < HEADER_SIZE {
        return None;
    }
    let told = usize::from(BigEndian::read_u16(&bytes[LENGTH_OFFSET..]));
    if bytes.len() < HEADER_SIZE + told {
        return None;
    }
    Some(Container {
        kind: bytes[0],
        version: bytes[1],
        body: &bytes[HEADER_SIZE..HEADER_SIZE + told],
    })
}

/// A walk over the containers of bytes, first to last.
#[derive(Debug, Drop)]
pub struct TvlvIter<'a> {
    left: &'a [u8],
    offset: usize,
    stopped: bool,
}

impl<'a> Model for TvlvIter<'a> {
    ghost use Rattle.std.specs.Prelude.{◌+◌, ◌<◌, ◌^◌, length};
    ghost use Rattle.mesh_tvlv.specs.Walk.{Walk};

    ghost Value = { Walk };

    ghost view = { λ w. record { left = w.left.now; offset = w.offset; stopped = w.stopped } };

    ghost invariant = { λ w. w.offset + length w.left.now < 2 ^ 64 };
}

impl<'a> TvlvIter<'a> {
    /// A walk that begins at the first of these bytes.
    pub fn new(bytes: &'a [u8]) -> TvlvIter<'a>
        ensures { result ≡ walk_over bytes.now }
    {
        TvlvIter {
            left: bytes,
            offset: 0,
            stopped: false,
        }
    }

    /// The next container. Where the bytes that are left begin no whole one, a cut is answered
    /// once, and the walk ends.
    pub fn next(&mut self) -> Option<Result<Container<'a>, TvlvErr>>
        ensures gives { IfSome result (λ answer. IfOk answer (λ container.
            to_come self.old ≡ seen container ∷ to_come self.new)) }
        ensures goes_on { IfSome result (λ answer. IfOk answer (λ container.
            self.new ≡ behind self.old (seen container))) }
        ensures none_left { MatchOption result (to_come self.old ≡ [])
            (λ answer. OnErr answer (to_come self.old ≡ [])) }

        // A cut is told exactly before some bytes, but fewer than a header and its told length.
        ensures cut { (result ≡ Some (Err (TvlvErr.Cut self.old.offset))) ↔ IsAtCut self.old }
        ensures cause { IfSome result (λ answer. IfErr answer (λ fault.
            fault ≡ TvlvErr.Cut self.old.offset)) }
        ensures stops { IfSome result (λ answer. OnErr answer (self.new ≡ stopped self.old)) }

        // Nothing is answered exactly at the end and after a cut.
        ensures ended { IsNone result ↔ HasEnded self.old }
        ensures stays { IfNone result (self.new ≡ self.old) }
    {
        if self.stopped || self.left.is_empty() {
            return None;
        }
        let Some(container) = first_container(self.left) else {
            self.stopped = true;
            return Some(Err(TvlvErr::Cut { place: self.offset }));
        };
        let size = HEADER_SIZE + container.body.len();
        self.left = &self.left[size..];
        self.offset += size;
        Some(Ok(container))
    }
}
