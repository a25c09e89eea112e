//! How the acts of a node are put, of which those are cut that are too long.

ghost use Rattle.std.specs.Prelude.{◌≡◌, ◌≤◌, ◌+◌, ◌∷◌, [], map, is_some, OnOk};
ghost use Rattle.mesh_model.specs.declared.act.Act.TheVariants.{Link};
ghost use Rattle.mesh_model.specs.Acts.Cuts.{after_act, cut_act, cut_acts, cuts_among, fragment_act, is_too_long};
ghost use Rattle.mesh_model.specs.Acts.NodeLimits.{cut_limit};
ghost use Rattle.mesh_model.specs.Fragments.Cutting.{reach_of};
ghost use Rattle.mesh_frag.specs.Frags.{HeadsFragment};
ghost use Rattle.node_cuts.specs.Collected.{cutter_of, one_cut_limit};
ghost use Rattle.node_ground.specs.Puts.{Leaves, Puts};

use mesh_base::{Bytes, Mac, Reason};
use mesh_frag::{Cuts, HEAD_SIZE, Head, MOST_FRAGMENTS, cut, reach_of};
use mesh_model::Act;
use node_ground::messages::send;
use node_ground::{NodeErr, Port};
use std::alloc::Global;

/// How many cuts a node makes at most.
const CUTS_LIMIT: u16 = 65_535;

/// The least that the greatest length of a packet may be.
const LEAST_MOST: usize = 300;

/// How a node cuts the packets for one node that are too long to go whole.
#[derive(Clone, Copy, Debug)]
pub struct Cutter {
    /// Its address.
    pub me: Mac,
    /// The greatest length of a packet that goes whole, 0 where all do.
    pub most: u16,
    /// How many cuts it made.
    pub cuts: u16,
}

// Whether a packet of this length is too long to go whole, and not too long for fragments.
fn is_too_long(most: u16, size: usize) -> bool
    ensures { result ≡ is_too_long most size }
{
    let most = usize::from(most);
    LEAST_MOST <= most
        && most < size
        && size <= usize::from(MOST_FRAGMENTS) * (most - HEAD_SIZE)
        && size < 65_536
}

// Whether bytes begin with a packet for one node.
fn is_for_one_node(bytes: &[u8]) -> bool
    ensures { result ≡ is_some (reach_of bytes.now) }
{
    reach_of(bytes).is_some()
}

// Puts a fragment on the way of its packet.
fn put_fragment<P: Port>(
    port: &mut P,
    to: Option<Mac>,
    head: &Head,
    tail: &[u8],
) -> Result<(), NodeErr>
    requires { HeadsFragment head.now }
    ensures { Puts P.takes P.same P.over port.old
        (fragment_act to (head.now, tail.now) ∷ []) result port.new }
{
    send(port, to, None, head, tail)?;
    Ok(())
}

// Puts the fragments of a cut, in order.
fn put_cuts<P: Port>(port: &mut P, to: Option<Mac>, cuts: &Cuts) -> Result<(), NodeErr>
    ensures { Puts P.takes P.same P.over port.old (map (fragment_act to) cuts.now)
        result port.new }
{
    for place in 0..cuts.len() {
        let Some((head, tail)) = cuts.at(place) else {
            unreachable!()
        };
        put_fragment(port, to, &head, tail)?;
    }
    Ok(())
}

impl Cutter {
    /// How the node of an address cuts, where at most so many bytes go whole, after so many cuts.
    pub fn new(me: Mac, most: u16, cuts: u16) -> Cutter
        ensures is { cutter_of result ≡ record { me = me; most = most; cuts = cuts } }
        ensures few { result.cuts ≤ 65535 }
    {
        Cutter { me, most, cuts }
    }

    // Puts a packet, which is cut where it is too long.
    fn put_packet<P: Port>(
        &mut self,
        alloc: Global,
        port: &mut P,
        to: Option<Mac>,
        reason: Option<Reason>,
        bytes: Bytes,
    ) -> Result<(), NodeErr>
        requires few { self.old.cuts ≤ 65535 }
        ensures puts { Leaves P.takes P.same P.over
            (one_cut_limit (cutter_of self.old) (Link to reason bytes)) port.old
            (cut_act (cutter_of self.old) (Link to reason bytes)) result port.new }
        ensures counted { OnOk result
            (cutter_of self.new ≡ after_act (cutter_of self.old) (Link to reason bytes)) }
        ensures few { OnOk result (self.new.cuts ≤ 65535) }
    {
        if !is_too_long(self.most, bytes.len()) || !is_for_one_node(bytes.as_slice()) {
            port.put(Act::Link { to, reason, bytes })?;
            return Ok(());
        }
        if self.cuts == CUTS_LIMIT {
            return Err(NodeErr::Cuts);
        }
        self.cuts += 1;
        let most = usize::from(self.most);
        let cuts = cut(alloc, bytes.as_slice(), most, self.me, self.cuts)?;
        put_cuts(port, to, &cuts)?;
        Ok(())
    }

    // Puts an act, which is cut where it is too long.
    fn put<P: Port>(&mut self, alloc: Global, port: &mut P, act: Act) -> Result<(), NodeErr>
        requires few { self.old.cuts ≤ 65535 }
        ensures puts { Leaves P.takes P.same P.over (one_cut_limit (cutter_of self.old) act)
            port.old (cut_act (cutter_of self.old) act) result port.new }
        ensures counted { OnOk result (cutter_of self.new ≡ after_act (cutter_of self.old) act) }
        ensures few { OnOk result (self.new.cuts ≤ 65535) }
    {
        match act {
            Act::Link { to, reason, bytes } => self.put_packet(alloc, port, to, reason, bytes)?,
            Act::Lan { bytes } => port.put(Act::Lan { bytes })?,
            Act::Print(event) => port.put(Act::Print(event))?,
        }
        Ok(())
    }

    /// Puts acts, of which those are cut that are too long, and counts the cuts.
    #[inline(always)]
    pub fn put_all<P: Port>(
        &mut self,
        alloc: Global,
        port: &mut P,
        acts: Vec<Act>,
    ) -> Result<(), NodeErr>
        requires few { self.old.cuts ≤ 65535 }
        ensures puts { Leaves P.takes P.same P.over (cut_limit (cutter_of self.old) acts.items)
            port.old (cut_acts (cutter_of self.old) acts.items) result port.new }
        ensures counted { OnOk result
            (self.new.cuts ≡ self.old.cuts + cuts_among self.old.most acts.items) }
    {
        // Most inputs give no act.
        if acts.is_empty() {
            return Ok(());
        }
        self.put_each(alloc, port, acts)?;
        Ok(())
    }

    // Puts acts one after another, as `put_all` does.
    fn put_each<P: Port>(
        &mut self,
        alloc: Global,
        port: &mut P,
        acts: Vec<Act>,
    ) -> Result<(), NodeErr>
        requires few { self.old.cuts ≤ 65535 }
        ensures puts { Leaves P.takes P.same P.over (cut_limit (cutter_of self.old) acts.items)
            port.old (cut_acts (cutter_of self.old) acts.items) result port.new }
        ensures counted { OnOk result
            (self.new.cuts ≡ self.old.cuts + cuts_among self.old.most acts.items) }
    {
        for act in acts {
            self.put(alloc, port, act)?;
        }
        Ok(())
    }
}
