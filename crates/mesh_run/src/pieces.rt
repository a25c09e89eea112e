//! The pieces of an input, cut into lines: each line is carried out as its newline comes.

ghost use Rattle.std.specs.Prelude.{◌≡◌, ℕ, ◌+◌, ◌<◌, ◌≤◌, List, [], ◌∷◌, ◌++◌, length, Option, OnOk, IfErr};
ghost use Rattle.mesh_model.specs.declared.input_kind.InputKind.{InputKind};
ghost use Rattle.mesh_laws.specs.Cuts.{IsUnbroken};
ghost use Rattle.mesh_model.specs.Scenario.Lines.{input_limit, newline, without_carriage_return};
ghost use Rattle.mesh_run.specs.Inner.Lines.{BlamesWrite, CountsWrites};
ghost use Rattle.mesh_run.specs.Inner.Kinds.{IsReady};
ghost use Rattle.mesh_run.specs.Inner.Progress.{Fails, FailsIn, FailsOn, ReadsOn, Stands, StandsBehind};
ghost use Rattle.mesh_run.specs.Outcome.{Finishes};

use crate::fault::Fault;
use crate::runner::{INPUT_LIMIT, LINE_LIMIT, Runner};
use memchr::memchr;
use mesh_base::Sink;
use mesh_model::{LimitName, Stop};

/// A line less a carriage return at its end.
fn without_return(line: &[u8]) -> &[u8]
    ensures { result.now ≡ without_carriage_return line.now }
{
    line.strip_suffix(b"\r").unwrap_or(line)
}

impl Runner {
    /// Keeps more bytes of the unfinished line, none of them a newline.
    pub fn hold(&mut self, text: &[u8]) -> Result<(), Fault>
        requires within { self.old.taken + length text.now ≤ input_limit }
        ensures ok { (taken : Option (List ℕ)) → IsUnbroken text.now →
            ReadsOn taken taken self.old self.new text.now result }
        ensures failed { (taken : Option (List ℕ)) → IsUnbroken text.now →
            FailsOn taken taken self.old text.now result }
        ensures taken { OnOk result (self.new.taken ≡ self.old.taken + length text.now) }
        ensures carrier { self.new.carrier ≡ self.old.carrier }
        ensures blameless { (old new : ℕ) → IfErr result (BlamesWrite old new) }
    {
        if text.len() > LINE_LIMIT - self.line.len() {
            return Err(self.halted(LimitName::Line));
        }
        if self.line.extend_from_slice(text).is_err() {
            return Err(Fault::Memory);
        }
        self.taken += text.len();
        Ok(())
    }

    /// Carries out the unfinished line, whose newline came.
    pub fn end_line<K: Sink>(&mut self, out: &mut K) -> Result<(), Fault>
        requires within { self.old.taken < input_limit }
        requires ready { IsReady self.old.carrier }
        ensures ok { ReadsOn (K.taken out.old) (K.taken out.new) self.old self.new
            (newline ∷ []) result }
        ensures failed { FailsOn (K.taken out.old) (K.taken out.new) self.old
            (newline ∷ []) result }
        ensures taken { OnOk result (self.new.taken ≡ self.old.taken + 1) }
        ensures faults { CountsWrites (K.faults out.old) (K.faults out.new) result }
        ensures ready { OnOk result (IsReady self.new.carrier) }
    {
        let line = without_return(self.line.as_slice());
        self.carrier
            .carry_line(&mut self.text, out, line, self.lines + 1)?;
        self.line.clear();
        self.lines += 1;
        self.taken += 1;
        Ok(())
    }

    /// Carries out the lines that these bytes end, and keeps what they begin.
    pub fn take_lines<K: Sink>(&mut self, out: &mut K, bytes: &[u8]) -> Result<(), Fault>
        requires within { self.old.taken + length bytes.now ≤ input_limit }
        requires ready { IsReady self.old.carrier }
        ensures ok { ReadsOn (K.taken out.old) (K.taken out.new) self.old self.new
            bytes.now result }
        ensures failed { FailsOn (K.taken out.old) (K.taken out.new) self.old bytes.now result }
        ensures taken { OnOk result (self.new.taken ≡ self.old.taken + length bytes.now) }
        ensures faults { CountsWrites (K.faults out.old) (K.faults out.new) result }
        ensures ready { OnOk result (IsReady self.new.carrier) }
    {
        let mut rest = bytes;
        while let Some(end) = memchr(b'\n', rest) {
            self.take_line(out, &rest[..end])?;
            rest = &rest[end + 1..];
        }
        self.hold(rest)?;
        Ok(())
    }

    /// Carries out the unfinished line with these bytes, none of them a newline, and then a
    /// newline.
    fn take_line<K: Sink>(&mut self, out: &mut K, text: &[u8]) -> Result<(), Fault>
        requires within { self.old.taken + length text.now < input_limit }
        requires ready { IsReady self.old.carrier }
        ensures ok { IsUnbroken text.now → ReadsOn (K.taken out.old) (K.taken out.new)
            self.old self.new (text.now ++ newline ∷ []) result }
        ensures failed { IsUnbroken text.now → FailsOn (K.taken out.old) (K.taken out.new)
            self.old (text.now ++ newline ∷ []) result }
        ensures taken { OnOk result (self.new.taken ≡ self.old.taken + length text.now + 1) }
        ensures faults { CountsWrites (K.faults out.old) (K.faults out.new) result }
        ensures ready { OnOk result (IsReady self.new.carrier) }
    {
        self.hold(text)?;
        self.end_line(out)?;
        Ok(())
    }

    /// Takes what one read gave; the byte past the input's limit halts the run.
    pub fn take_piece<K: Sink>(&mut self, out: &mut K, piece: &[u8]) -> Result<(), Fault>
        requires ready { IsReady self.old.carrier }
        ensures ok { ReadsOn (K.taken out.old) (K.taken out.new) self.old self.new
            piece.now result }
        ensures failed { FailsOn (K.taken out.old) (K.taken out.new) self.old piece.now result }
        ensures taken { OnOk result (self.new.taken ≡ self.old.taken + length piece.now) }
        ensures faults { CountsWrites (K.faults out.old) (K.faults out.new) result }
        ensures ready { OnOk result (IsReady self.new.carrier) }
    {
        let room = INPUT_LIMIT - self.taken;
        if piece.len() <= room {
            self.take_lines(out, piece)?;
            return Ok(());
        }
        self.take_lines(out, &piece[..room])?;
        Err(self.past_input(piece[room]))
    }

    /// The fault of the byte past the input's limit.
    fn past_input(&self, byte: u8) -> Fault
        requires full { self.now.taken ≡ input_limit }
        ensures failed { (kind : InputKind) (base now : Option (List ℕ)) (read : List ℕ) →
            Stands kind base now self.now read →
            Fails kind base now (length read + 1) (read ++ byte ∷ []) result }
        ensures blameless { (old new : ℕ) → BlamesWrite old new result }
    {
        if byte == b'\n' {
            return self.halted(LimitName::Input);
        }
        if self.line.len() < LINE_LIMIT {
            return self.halted(LimitName::Input);
        }
        self.halted(LimitName::Line)
    }

    /// The fault of a limit that the unfinished line reaches.
    fn halted(&self, name: LimitName) -> Fault
        ensures { result ≡ Fault.Halted (self.now.lines + 1) (Stop.Limit name) }
    {
        Fault::Halted {
            line: self.lines + 1,
            stop: Stop::Limit(name),
        }
    }

    /// Carries out a last line without a newline, at the end of the input, and ends the input.
    pub fn finish<K: Sink>(mut self, out: &mut K) -> Result<(), Fault>
        requires ready { IsReady self.carrier }
        ensures ok { (kind : InputKind) (base : Option (List ℕ)) (read : List ℕ) →
            Stands kind base (K.taken out.old) self read →
            OnOk result (Finishes kind base (K.taken out.new) read) }
        ensures failed { (kind : InputKind) (base : Option (List ℕ)) (read : List ℕ) →
            Stands kind base (K.taken out.old) self read →
            IfErr result (FailsIn kind base (K.taken out.new) (length read) read) }
        ensures faults { CountsWrites (K.faults out.old) (K.faults out.new) result }
    {
        let runner = &mut self;
        runner.last_line(out)?;
        runner.carrier.end(&mut runner.text, out)?;
        Ok(())
    }

    /// Carries out a last line without a newline, where there is one.
    fn last_line<K: Sink>(&mut self, out: &mut K) -> Result<(), Fault>
        requires ready { IsReady self.old.carrier }
        ensures ok { (kind : InputKind) (base : Option (List ℕ)) (read : List ℕ) →
            Stands kind base (K.taken out.old) self.old read →
            OnOk result (StandsBehind kind base (K.taken out.new) self.new.carrier read) }
        ensures failed { (kind : InputKind) (base : Option (List ℕ)) (read : List ℕ) →
            Stands kind base (K.taken out.old) self.old read →
            IfErr result (FailsIn kind base (K.taken out.new) (length read) read) }
        ensures faults { CountsWrites (K.faults out.old) (K.faults out.new) result }
    {
        if self.line.is_empty() {
            return Ok(());
        }
        let line = self.line.as_slice();
        self.carrier
            .carry_line(&mut self.text, out, line, self.lines + 1)?;
        Ok(())
    }
}
