//! Writing bytes behind all others: into the rest of the newest chunk, or into one that is begun.
ghost use Rattle.std.specs.Prelude.{◌≡◌, ◌+◌, ◌<◌, ◌≤◌, [], length, IfOk, IsOk, OnErr};
ghost use Rattle.frame_store.specs.Filling.{rest};
ghost use Rattle.frame_store.specs.Frames.{bytes_limit, newest};
ghost use Rattle.frame_store.specs.Inner.{HasWritten, IsFresh, IsRoomier};
ghost use Rattle.frame_store.specs.Store.{AreChunks, AreFilled, IsReady};

use crate::chunk::Chunk;
use crate::grown::Grown;
use crate::older::Older;
use crate::place::Place;
use mesh_base::NoMemory;
use std::mem;

/// The least size of a chunk.
pub(crate) const CHUNK_SIZE: usize = 1_048_576;

/// Writes bytes behind all others and answers their place.
pub(crate) fn write(older: &Older, grown: &mut Grown, bytes: &[u8]) -> Result<Place, NoMemory>
    requires stand { AreChunks older.now grown.old }
    requires filled { AreFilled older.now grown.old grown.old.total }
    requires ready { IsReady older.now grown.old }
    requires small { grown.old.total + length bytes.now ≤ bytes_limit }
    ensures ok { IfOk result (λ place. HasWritten older.now grown.old grown.new bytes.now place) }
    ensures err { OnErr result (IsRoomier grown.old grown.new) }
    ensures succeeds { length bytes.now ≤ rest (newest older.now grown.old) → IsOk result }
    ensures aside { length bytes.now ≤ grown.old.aside.size → IsOk result }
{
    if newest_rest(older, grown) < bytes.len() {
        return begin(older, grown, bytes);
    }
    if grown.younger.is_empty() {
        Ok(stage(older, grown, bytes))
    } else {
        Ok(lengthen(older, grown, bytes))
    }
}

/// How many more bytes the newest chunk holds.
pub(crate) fn newest_rest(older: &Older, grown: &Grown) -> usize
    requires stand { AreChunks older.now grown.now }
    ensures { result ≡ rest (newest older.now grown.now) }
{
    match grown.younger.last() {
        Some(youngest) => youngest.rest(),
        None => older.last.rest() - grown.staged.len(),
    }
}

// Stages bytes, which are to stand in the last older chunk.
fn stage(older: &Older, grown: &mut Grown, bytes: &[u8]) -> Place
    requires stand { AreChunks older.now grown.old }
    requires filled { AreFilled older.now grown.old grown.old.total }
    requires ready { IsReady older.now grown.old }
    requires small { grown.old.total + length bytes.now ≤ bytes_limit }
    requires none { grown.old.younger.items ≡ [] }
    requires fits { length bytes.now ≤ rest (newest older.now grown.old) }
    ensures { HasWritten older.now grown.old grown.new bytes.now result }
{
    let place = Place {
        chunk: older.closed.len() as u32,
        start: (older.last.len() + grown.staged.len()) as u32,
        len: bytes.len() as u32,
    };
    grown.staged.append(bytes);
    place
}

// Writes bytes into the rest of the youngest chunk.
fn lengthen(older: &Older, grown: &mut Grown, bytes: &[u8]) -> Place
    requires stand { AreChunks older.now grown.old }
    requires filled { AreFilled older.now grown.old grown.old.total }
    requires ready { IsReady older.now grown.old }
    requires small { grown.old.total + length bytes.now ≤ bytes_limit }
    requires some { 0 < length grown.old.younger.items }
    requires fits { length bytes.now ≤ rest (newest older.now grown.old) }
    ensures { HasWritten older.now grown.old grown.new bytes.now result }
{
    let chunk = (older.closed.len() + grown.younger.len()) as u32;
    let mut youngest = grown.younger.pop().unwrap();
    let place = Place {
        chunk,
        start: youngest.len() as u32,
        len: bytes.len() as u32,
    };
    youngest.append(bytes);
    grown.younger.push_reserved(youngest);
    place
}

// Begins a chunk with bytes that the newest one doesn't hold.
fn begin(older: &Older, grown: &mut Grown, bytes: &[u8]) -> Result<Place, NoMemory>
    requires stand { AreChunks older.now grown.old }
    requires filled { AreFilled older.now grown.old grown.old.total }
    requires ready { IsReady older.now grown.old }
    requires small { grown.old.total + length bytes.now ≤ bytes_limit }
    requires longer { rest (newest older.now grown.old) < length bytes.now }
    ensures ok { IfOk result (λ place. HasWritten older.now grown.old grown.new bytes.now place) }
    ensures err { OnErr result (IsRoomier grown.old grown.new) }
    ensures aside { length bytes.now ≤ grown.old.aside.size → IsOk result }
{
    let mut chunk = fresh(grown, bytes.len())?;
    let place = Place {
        chunk: (older.closed.len() + grown.younger.len() + 1) as u32,
        start: 0,
        len: bytes.len() as u32,
    };
    chunk.append(bytes);
    grown.younger.push_reserved(chunk);
    Ok(place)
}

// A chunk that holds so many bytes, and room to stage the others that it takes: the one that stands
// aside where it holds so many, else a new one.
fn fresh(grown: &mut Grown, len: usize) -> Result<Chunk, NoMemory>
    requires unused { grown.old.aside.bytes ≡ [] }
    requires stages { grown.old.aside.size ≤ grown.old.staged.size }
    requires large { 0 < grown.old.aside.size → CHUNK_SIZE ≤ grown.old.aside.size }
    requires some { 0 < len }
    ensures ok { IfOk result (λ chunk. IsFresh grown.old grown.new len chunk) }
    ensures err { OnErr result (IsRoomier grown.old grown.new) }
    ensures aside { len ≤ grown.old.aside.size → IsOk result }
{
    if len <= grown.aside.size() {
        let none = Chunk::none(grown.alloc);
        return Ok(mem::replace(&mut grown.aside, none));
    }
    let size = len.max(CHUNK_SIZE);
    grown.staged.enlarge(size - len)?;
    Chunk::of_size(grown.alloc, size)
}
