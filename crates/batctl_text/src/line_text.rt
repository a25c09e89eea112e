ghost use Rattle.std.specs.Prelude.{◌≡◌, ◌≤◌, ◌++◌, [], ◌∷◌, OnOk, OnErr};
ghost use Rattle.mesh_model.specs.Scenario.Lines.{newline};

use mesh_base::NoMemory;
use std::alloc::Global;
use std::marker::Model;

/// The most bytes that are gathered in an array: most lines are shorter.
const ROOM: usize = 128;

/// The text of a line while it is put together.
///
/// Bytes are gathered in an array. What it has no room for goes on in a vector.
#[derive(Drop)]
pub struct LineText {
    front: Vec<u8>,
    room: [u8; ROOM],
    len: usize,
    ghost within: { len ≤ 128 },
}

impl Model for LineText {
    ghost use Rattle.std.specs.Prelude.{ℕ, List, ◌++◌, take};

    ghost Value = { List ℕ };

    ghost view = { λ text. text.front.items ++ take text.len text.room };
}

impl LineText {
    /// No text.
    pub fn new(alloc: Global) -> LineText
        ensures { result ≡ [] }
    {
        LineText {
            front: Vec::new(alloc),
            room: [0; ROOM],
            len: 0,
        }
    }

    /// Appends bytes.
    #[inline(always)]
    pub fn put(&mut self, bytes: &[u8]) -> Result<(), NoMemory>
        ensures { OnOk result (self.new ≡ self.old ++ bytes.now) }
    {
        if bytes.len() > ROOM - self.len {
            self.put_long(bytes)?;
            return Ok(());
        }
        let end = self.len + bytes.len();
        self.room[self.len..end].copy_from_slice(bytes);
        self.len = end;
        Ok(())
    }

    /// Appends bytes to the vector, behind those of the array.
    fn put_long(&mut self, bytes: &[u8]) -> Result<(), NoMemory>
        ensures { OnOk result (self.new ≡ self.old ++ bytes.now) }
    {
        let len = self.len;
        self.front.extend_from_slice(&self.room[..len])?;
        self.len = 0;
        self.front.extend_from_slice(bytes)?;
        Ok(())
    }

    /// Appends what was put together to a text.
    fn append_to(&self, out: &mut Vec<u8>) -> Result<(), NoMemory>
        ensures ok { OnOk result (out.new.items ≡ out.old.items ++ self.now) }
        ensures err { OnErr result (out.new.items ≡ out.old.items) }
    {
        let before = out.len();
        if !self.front.is_empty() {
            out.extend_from_slice(self.front.as_slice())?;
        }
        if out.extend_from_slice(&self.room[..self.len]).is_err() {
            out.truncate(before);
            return Err(NoMemory);
        }
        Ok(())
    }

    /// Ends the line, and appends it to a text.
    pub fn end(&mut self, out: &mut Vec<u8>) -> Result<(), NoMemory>
        ensures ok { OnOk result (out.new.items ≡ out.old.items ++ self.old ++ newline ∷ []) }
        ensures err { OnErr result (out.new.items ≡ out.old.items) }
    {
        self.put(b"\n")?;
        self.append_to(out)?;
        Ok(())
    }
}
