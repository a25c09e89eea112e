//! The fragments that come to a node, put together.

ghost use Rattle.std.specs.Prelude.{◌≡◌, ◌≤◌, ℕ, List, [], ◌∷◌, filter, true, false, IfOk, IfSome, IsSome, OnErr, OnOk};
ghost use Rattle.std.specs.Map.{lookup};
ghost use Rattle.indexmap.specs.IndexMap.{spare};
ghost use Rattle.mesh_model.specs.Fragments.Assembly.{PartCall};
ghost use Rattle.mesh_laws.specs.Rising.{RiseWithin};
ghost use Rattle.mesh_frag.specs.Frags.{Answers, FragsStand, newest_moment, opened_moments, part_of_head, same_assembly};
ghost use Rattle.mesh_frag.specs.Kept.{IsAnswered, Notes, call_of, is_kept_young, is_young};

use crate::assembly::OpenAssembly;
use crate::frag::Frag;
use indexmap::IndexMap;
use mesh_base::{Mac, Millis, NoMemory};
use mesh_model::Head;
use std::alloc::Global;
use std::marker::Model;

/// What an assembly is known by: the node that cut, the number of the cut, and the packet's length.
#[derive(Clone, Copy, Debug, PartialEq, Eq, Hash)]
struct AssemblyKey {
    orig: Mac,
    seq: u16,
    total: u16,
}

/// A part of an assembly: its place, and its bytes.
#[derive(Clone, Copy)]
struct Piece<'a> {
    place: u8,
    tail: &'a [u8],
}

/// The packets of which fragments came, and that a fragment can still make whole.
#[derive(Debug, Drop)]
pub struct Frags {
    /// In the order of opening.
    rows: IndexMap<AssemblyKey, OpenAssembly>,
}

impl Model for Frags {
    ghost use Rattle.mesh_frag.specs.Frags.{Rows};

    ghost Value = { Rows };

    ghost view = { λ f. f.rows.entries };
}

impl Frags {
    /// No fragment came.
    pub fn new(alloc: Global) -> Frags
        ensures { FragsStand result [] }
    {
        Frags {
            rows: IndexMap::new(alloc),
        }
    }

    /// Takes a fragment, unless one of its place came before, and tells what there is of its packet
    /// then. What is whole is open no more: a later fragment opens it anew. Those that were opened
    /// 10,000 ms ago or more are dropped. The first two clauses hold where moments don't fall from
    /// call to call.
    pub fn part(&mut self, now: Millis, head: &Head, tail: &[u8]) -> Result<Frag, NoMemory>
        requires { IsSome (part_of_head now head.now tail.now) }
        ensures ok { (calls : List PartCall) → FragsStand self.old calls →
            newest_moment calls ≤ now → OnOk result (IfSome (part_of_head now head.now tail.now)
            (λ call. FragsStand self.new (call ∷ calls))) }
        ensures answered { (calls : List PartCall) → FragsStand self.old calls →
            newest_moment calls ≤ now → IfOk result (λ frag.
            IfSome (part_of_head now head.now tail.now) (λ call. Answers call calls frag)) }
        ensures err { OnErr result (self.new ≡ self.old) }
    {
        let Head::Frag {
            number,
            orig,
            seq,
            total,
            ..
        } = *head
        else {
            unreachable!()
        };
        let key = AssemblyKey { orig, seq, total };
        let piece = Piece {
            place: number,
            tail,
        };
        if self.is_open(now, key) {
            self.go_on(now, key, piece)
        } else {
            self.begin(now, key, piece)
        }
    }

    // Whether an assembly is open still.
    fn is_open(&self, now: Millis, key: AssemblyKey) -> bool
        ensures { result ≡ is_kept_young now (lookup (same_assembly key) self.now) }
    {
        self.rows
            .get(&key)
            .is_some_and(|assembly| assembly.is_young(now))
    }

    // Takes a part of an assembly that is open still. Others are dropped only once no memory is
    // wanted any more, so that a refusal leaves all.
    fn go_on(&mut self, now: Millis, key: AssemblyKey, piece: Piece) -> Result<Frag, NoMemory>
        requires { is_kept_young now (lookup (same_assembly key) self.old) ≡ true }
        ensures ok { Notes (call_of now key piece.entry) self.old self.new result }
        ensures answered { IsAnswered (call_of now key piece.entry) self.old result }
        ensures err { OnErr result (self.new ≡ self.old) }
    {
        let assembly = self.rows.get_mut(&key).unwrap();
        let told = assembly.take(key.total, piece.place, piece.tail)?;
        drop_aged(&mut self.rows, now);
        if let Frag::Whole(_) = told {
            self.rows.shift_remove(&key);
        }
        Ok(told)
    }

    // Takes a part of an assembly that it opens, behind the others.
    fn begin(&mut self, now: Millis, key: AssemblyKey, piece: Piece) -> Result<Frag, NoMemory>
        requires { is_kept_young now (lookup (same_assembly key) self.old) ≡ false }
        ensures ok { Notes (call_of now key piece.entry) self.old self.new result }
        ensures answered { IsAnswered (call_of now key piece.entry) self.old result }
        ensures err { OnErr result (self.new ≡ self.old) }
    {
        let mut assembly = OpenAssembly::new(*self.rows.allocator(), now);
        let told = assembly.take(key.total, piece.place, piece.tail)?;
        self.rows.reserve(1)?;
        drop_aged(&mut self.rows, now);
        if let Frag::Open { .. } = told {
            self.rows.insert(key, assembly).unwrap();
        }
        Ok(told)
    }
}

// Drops the assemblies that aren't open any more. The rows stand in the order of opening, so where
// the first is open all are.
fn drop_aged(rows: &mut IndexMap<AssemblyKey, OpenAssembly>, now: Millis)
    ensures kept { (first last : ℕ) → RiseWithin first (opened_moments rows.old.entries) last →
        rows.new.entries ≡ filter (λ row. is_young now row.1) rows.old.entries }
    ensures room { spare rows.old ≤ spare rows.new }
{
    let is_aged = rows
        .first()
        .is_some_and(|(_, assembly)| !assembly.is_young(now));
    if is_aged {
        rows.retain(|_, assembly| assembly.is_young(now));
    }
}
