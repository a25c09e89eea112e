//! What was read of lines of routes.

ghost use Rattle.std.specs.Prelude.{◌≡◌, ◌≢◌, ◌↔◌, ◌++◌, Err, false, nat_lt, IfErr, OnErr, OnOk, if◌then◌else◌};
ghost use Rattle.std.specs.Option.{option_map_or};
ghost use Rattle.mesh_model.specs.declared.route_line.RouteReading.TheVariants.{Bad, Route};
ghost use Rattle.mesh_model.specs.Loops.Bisecting.{Bisecting, after_route, ended, ends_moment, moment_text, no_lines, told_at, with_route};
ghost use Rattle.mesh_model.specs.Loops.RouteLines.{route_of_line};
ghost use Rattle.mesh_bisect.specs.declared.failure.BisectErr.TheVariants.{BadRoute, Pairs, TimeBack};
ghost use Rattle.mesh_bisect.specs.Bisect.{BisectStands, IsLate, IsOneTooMany, IsRefusal, after_reading, told_at_reading};

use crate::failure::BisectErr;
use crate::report_text::{put_report, put_text};
use mesh_base::{Millis, NoMemory};
use mesh_loops::{Watch, WatchErr};
use mesh_model::{RouteLine, RouteReading};
use mesh_scenario::read_route;
use std::alloc::Global;

/// What was read of lines of routes: the routes, and the moment under way.
#[derive(Debug, Drop)]
pub struct Bisect {
    alloc: Global,
    watch: Watch,
    moment: Option<Millis>,
}

impl Bisect {
    /// No line came.
    pub fn new(alloc: Global) -> Bisect
        ensures { BisectStands result no_lines }
    {
        Bisect {
            alloc,
            watch: Watch::new(alloc),
            moment: None,
        }
    }

    /// Takes what a line says, and appends the report of the moment that it ends. A line whose first
    /// word isn't `route` is passed over.
    pub fn take(&mut self, line: &[u8], out: &mut Vec<u8>) -> Result<(), BisectErr>
        ensures ok { (lines : Bisecting) → BisectStands self.old lines →
            OnOk result (BisectStands self.new (after_reading lines (route_of_line line.now))) }
        ensures told { (lines : Bisecting) → BisectStands self.old lines → OnOk result
            (out.new.items ≡ out.old.items ++ told_at_reading lines (route_of_line line.now)) }

        // Refused exactly where it is no route, late, or names a pair too many, unless memory runs
        // out. Then nothing is printed, and memory aside nothing changes.
        ensures bad { (result ≡ Err BadRoute) ↔ (route_of_line line.now ≡ Bad) }
        ensures late { (lines : Bisecting) → BisectStands self.old lines →
            (result ≡ Err TimeBack) ↔ IsLate lines (route_of_line line.now) }
        ensures pairs { (lines : Bisecting) → BisectStands self.old lines →
            (result ≡ Err Pairs) ↔ IsOneTooMany lines (route_of_line line.now) }
        ensures quiet { OnErr result (out.new.items ≡ out.old.items) }
        ensures err { IfErr result (λ error. IsRefusal error → self.new ≡ self.old) }
    {
        match read_route(line) {
            RouteReading::Other => Ok(()),
            RouteReading::Bad => Err(BisectErr::BadRoute),
            RouteReading::Route(line) => {
                self.route(line, out)?;
                Ok(())
            }
        }
    }

    /// Ends the moment under way, and appends its report.
    pub fn end(&mut self, out: &mut Vec<u8>) -> Result<(), NoMemory>
        ensures ok { (lines : Bisecting) → BisectStands self.old lines →
            OnOk result (BisectStands self.new (ended lines)) }
        ensures told { (lines : Bisecting) → BisectStands self.old lines →
            OnOk result (out.new.items ≡ out.old.items ++ moment_text lines) }
        ensures quiet { OnErr result (out.new.items ≡ out.old.items) }
    {
        let Some(moment) = self.moment else {
            return Ok(());
        };
        let report = self.watch.settle()?;
        self.moment = None;
        let mut text = Vec::new(self.alloc);
        put_report(&mut text, moment, &report)?;
        put_text(out, text.as_slice())?;
        Ok(())
    }

    // Whether a moment is earlier than the one under way.
    fn is_late(&self, moment: Millis) -> bool
        ensures { result ≡ option_map_or (λ now. nat_lt moment now) self.now.moment false }
    {
        match self.moment {
            Some(now) => moment < now,
            None => false,
        }
    }

    // Whether a moment ends the one under way.
    fn ends_moment(&self, moment: Millis) -> bool
        ensures { result ≡ option_map_or (λ now. nat_lt now moment) self.now.moment false }
    {
        match self.moment {
            Some(now) => now < moment,
            None => false,
        }
    }

    // Ends the moment under way where a line does, and appends its report.
    fn end_before(&mut self, line: RouteLine, text: &mut Vec<u8>) -> Result<(), NoMemory>
        ensures ok { (lines : Bisecting) → BisectStands self.old lines → OnOk result
            (BisectStands self.new (if ends_moment lines line then ended lines else lines)) }
        ensures told { (lines : Bisecting) → BisectStands self.old lines →
            OnOk result (text.new.items ≡ text.old.items ++ told_at lines line) }
    {
        if self.ends_moment(line.moment) {
            self.end(text)?;
        }
        Ok(())
    }

    // Adds a route to the moment under way.
    fn add(&mut self, line: RouteLine) -> Result<(), NoMemory>
        ensures { (lines : Bisecting) → BisectStands self.old lines →
            OnOk result (BisectStands self.new (with_route lines line)) }
    {
        match self.watch.set(line.node, line.orig, line.next) {
            Ok(()) => {
                self.moment = Some(line.moment);
                Ok(())
            }
            Err(WatchErr::Pairs | WatchErr::Memory) => Err(NoMemory),
        }
    }

    // Takes a route, and appends the report of the moment that it ends.
    fn route(&mut self, line: RouteLine, out: &mut Vec<u8>) -> Result<(), BisectErr>
        ensures ok { (lines : Bisecting) → BisectStands self.old lines →
            OnOk result (BisectStands self.new (after_route lines line)) }
        ensures told { (lines : Bisecting) → BisectStands self.old lines →
            OnOk result (out.new.items ≡ out.old.items ++ told_at lines line) }
        ensures bad { result ≢ Err BadRoute }
        ensures late { (lines : Bisecting) → BisectStands self.old lines →
            (result ≡ Err TimeBack) ↔ IsLate lines (Route line) }
        ensures pairs { (lines : Bisecting) → BisectStands self.old lines →
            (result ≡ Err Pairs) ↔ IsOneTooMany lines (Route line) }
        ensures quiet { OnErr result (out.new.items ≡ out.old.items) }
        ensures err { IfErr result (λ error. IsRefusal error → self.new ≡ self.old) }
    {
        if self.is_late(line.moment) {
            return Err(BisectErr::TimeBack);
        }
        if self.watch.is_full_for(line.node, line.orig) {
            return Err(BisectErr::Pairs);
        }
        let mut text = Vec::new(self.alloc);
        self.end_before(line, &mut text)?;
        self.add(line)?;
        put_text(out, text.as_slice())?;
        Ok(())
    }
}
