//! The next words of a line, taken as fields.

ghost use Rattle.std.specs.Prelude.{◌≡◌, ◌<◌, ◌≤◌, Ok, IfOk, IfErr};
ghost use Rattle.mesh_model.specs.Scenario.Fields.{word_field, name_field, unicast_field, target_field, group_field, vid_field, ip_field, hex_field, number_field, number_limit, frame_number_field, switch_field, algorithm_field, alfred_mode_field, table_field};
ghost use Rattle.mesh_model.specs.Scenario.SettingForms.{longest_field};
ghost use Rattle.mesh_model.specs.Scenario.Readings.{the_end};
ghost use Rattle.mesh_scenario.specs.LineErr.{Refuses};
ghost use Rattle.mesh_scenario.specs.Inner.Taking.{GivesField, FailsField, RefusesField, GivesText, RefusesText, GivesTextUpTo, RefusesTextUpTo};

use crate::hex_bytes::hex_bytes;
use crate::ip::ip;
use crate::line_err::LineErr;
use crate::words::Words;
use crate::{listed, terms};
use mesh_base::{Bytes, Mac, Vid};
use mesh_model::{AlfredMode, Algorithm, Command, Table};
use std::alloc::Global;

/// The least length that the greatest length of a packet that goes whole may be.
const LEAST_LONGEST: u64 = 300;
/// The greatest of these lengths.
const LONGEST_LIMIT: u64 = 65_535;

impl<'a> Words<'a> {
    /// Takes a word as it stands.
    pub fn word(&mut self) -> Result<&'a [u8], LineErr>
        ensures ok { IfOk result (λ word. GivesField word_field self.old word.now self.new) }
        ensures refused { IfErr result (FailsField word_field self.old) }
    {
        let found = self.next().ok_or(LineErr::MissingWord)?;
        Ok(found.word)
    }

    /// Takes a name.
    pub fn name(&mut self, alloc: Global) -> Result<Bytes, LineErr>
        ensures ok { IfOk result (λ name. GivesField name_field self.old name self.new) }
        ensures refused { IfErr result (RefusesField name_field self.old) }
    {
        let found = self.next().ok_or(LineErr::MissingWord)?;
        if !terms::is_name(found.word) {
            return Err(LineErr::BadName);
        }
        let name = Bytes::from_slice(alloc, found.word)?;
        Ok(name)
    }

    /// Takes the address of one station.
    pub fn unicast(&mut self) -> Result<Mac, LineErr>
        ensures ok { IfOk result (λ mac. GivesField unicast_field self.old mac self.new) }
        ensures refused { IfErr result (FailsField unicast_field self.old) }
    {
        let found = self.next().ok_or(LineErr::MissingWord)?;
        let mac = Mac::read(found.word).ok_or(LineErr::BadMac)?;
        if terms::is_unicast(mac) {
            Ok(mac)
        } else {
            Err(LineErr::OutOfRange)
        }
    }

    /// Takes the address to which a frame goes.
    pub fn target(&mut self) -> Result<Mac, LineErr>
        ensures ok { IfOk result (λ mac. GivesField target_field self.old mac self.new) }
        ensures refused { IfErr result (FailsField target_field self.old) }
    {
        let found = self.next().ok_or(LineErr::MissingWord)?;
        let mac = Mac::read(found.word).ok_or(LineErr::BadMac)?;
        if mac.is_zero() {
            Err(LineErr::OutOfRange)
        } else {
            Ok(mac)
        }
    }

    /// Takes the address of a group other than all stations.
    pub fn group(&mut self) -> Result<Mac, LineErr>
        ensures ok { IfOk result (λ mac. GivesField group_field self.old mac self.new) }
        ensures refused { IfErr result (FailsField group_field self.old) }
    {
        let found = self.next().ok_or(LineErr::MissingWord)?;
        let mac = Mac::read(found.word).ok_or(LineErr::BadMac)?;
        if terms::is_group(mac) {
            Ok(mac)
        } else {
            Err(LineErr::OutOfRange)
        }
    }

    /// Takes a VLAN.
    pub fn vid(&mut self) -> Result<Vid, LineErr>
        ensures ok { IfOk result (λ vid. GivesField vid_field self.old vid self.new) }
        ensures refused { IfErr result (FailsField vid_field self.old) }
    {
        let found = self.next().ok_or(LineErr::MissingWord)?;
        terms::vid(found.word).ok_or(LineErr::BadNumber)
    }

    /// Takes an IP address.
    pub fn ip(&mut self) -> Result<u32, LineErr>
        ensures ok { IfOk result (λ address. GivesField ip_field self.old address self.new) }
        ensures refused { IfErr result (FailsField ip_field self.old) }
    {
        let found = self.next().ok_or(LineErr::MissingWord)?;
        ip(found.word).ok_or(LineErr::BadNumber)
    }

    /// Takes bytes in hex.
    pub fn hex(&mut self, alloc: Global) -> Result<Bytes, LineErr>
        ensures ok { IfOk result (λ bytes. GivesField hex_field self.old bytes self.new) }
        ensures refused { IfErr result (RefusesField hex_field self.old) }
    {
        let found = self.next().ok_or(LineErr::MissingWord)?;
        hex_bytes(alloc, found.word)?.ok_or(LineErr::BadNumber)
    }

    /// Takes a number in a range.
    pub fn number(&mut self, least: u64, most: u64) -> Result<u64, LineErr>
        requires { most < number_limit }
        ensures ok { IfOk result (λ number.
            GivesField (number_field least most) self.old number self.new) }
        ensures within { IfOk result (λ number. number ≤ most) }
        ensures refused { IfErr result (FailsField (number_field least most) self.old) }
    {
        let found = self.next().ok_or(LineErr::MissingWord)?;
        let number = terms::number(found.word).ok_or(LineErr::BadNumber)?;
        if least <= number && number <= most {
            Ok(number)
        } else {
            Err(LineErr::OutOfRange)
        }
    }

    /// Takes the greatest length of a packet that goes whole, or 0 where all do.
    pub fn longest_whole(&mut self) -> Result<u16, LineErr>
        ensures ok { IfOk result (λ size. GivesField longest_field self.old size self.new) }
        ensures refused { IfErr result (FailsField longest_field self.old) }
    {
        let found = self.next().ok_or(LineErr::MissingWord)?;
        let size = terms::number(found.word).ok_or(LineErr::BadNumber)?;
        if size == 0 || LEAST_LONGEST <= size && size <= LONGEST_LIMIT {
            Ok(size as u16)
        } else {
            Err(LineErr::OutOfRange)
        }
    }

    /// Takes the number of a link frame; `u64::MAX` stands for all that are greater.
    pub fn frame_number(&mut self) -> Result<u64, LineErr>
        ensures ok { IfOk result (λ number.
            GivesField frame_number_field self.old number self.new) }
        ensures refused { IfErr result (FailsField frame_number_field self.old) }
    {
        let found = self.next().ok_or(LineErr::MissingWord)?;
        terms::number(found.word).ok_or(LineErr::BadNumber)
    }

    /// Takes `on` or `off`.
    pub fn switch(&mut self) -> Result<bool, LineErr>
        ensures ok { IfOk result (λ on. GivesField switch_field self.old on self.new) }
        ensures refused { IfErr result (FailsField switch_field self.old) }
    {
        let found = self.next().ok_or(LineErr::MissingWord)?;
        listed::switch(found.word).ok_or(LineErr::OutOfRange)
    }

    /// Takes the name of an algorithm.
    pub fn algorithm(&mut self) -> Result<Algorithm, LineErr>
        ensures ok { IfOk result (λ algorithm.
            GivesField algorithm_field self.old algorithm self.new) }
        ensures refused { IfErr result (FailsField algorithm_field self.old) }
    {
        let found = self.next().ok_or(LineErr::MissingWord)?;
        listed::algorithm(found.word).ok_or(LineErr::OutOfRange)
    }

    /// Takes a mode of alfred.
    pub fn alfred_mode(&mut self) -> Result<AlfredMode, LineErr>
        ensures ok { IfOk result (λ mode. GivesField alfred_mode_field self.old mode self.new) }
        ensures refused { IfErr result (FailsField alfred_mode_field self.old) }
    {
        let found = self.next().ok_or(LineErr::MissingWord)?;
        listed::alfred_mode(found.word).ok_or(LineErr::OutOfRange)
    }

    /// Takes the name of a table.
    pub fn table(&mut self) -> Result<Table, LineErr>
        ensures ok { IfOk result (λ table. GivesField table_field self.old table self.new) }
        ensures refused { IfErr result (FailsField table_field self.old) }
    {
        let found = self.next().ok_or(LineErr::MissingWord)?;
        listed::table(found.word).ok_or(LineErr::OutOfRange)
    }

    /// Takes the rest of the line.
    pub fn text(&mut self, alloc: Global) -> Result<Bytes, LineErr>
        ensures ok { IfOk result (GivesText self.old) }
        ensures refused { IfErr result (RefusesText self.old) }
    {
        let found = self.next().ok_or(LineErr::MissingWord)?;
        let text = Bytes::from_slice(alloc, found.text)?;
        Ok(text)
    }

    /// Takes the rest of the line, of at most so many bytes.
    pub fn text_up_to(&mut self, alloc: Global, most: usize) -> Result<Bytes, LineErr>
        ensures ok { IfOk result (GivesTextUpTo most self.old) }
        ensures refused { IfErr result (RefusesTextUpTo most self.old) }
    {
        let found = self.next().ok_or(LineErr::MissingWord)?;
        if found.text.len() > most {
            return Err(LineErr::OutOfRange);
        }
        let text = Bytes::from_slice(alloc, found.text)?;
        Ok(text)
    }

    /// Gives the command of the words that were taken, where there are no more.
    pub fn end(&mut self, command: Command) -> Result<Command, LineErr>
        ensures ok { IfOk result (λ given. the_end command self.old ≡ Ok given) }
        ensures refused { IfErr result (Refuses (the_end command self.old)) }
    {
        match self.next() {
            None => Ok(command),
            Some(_) => Err(LineErr::ExtraWord),
        }
    }
}
