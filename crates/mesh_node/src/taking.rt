//! What a node does with what it is given: for each kind of input one function.

ghost use Rattle.std.specs.Prelude.{◌≡◌, ◌≤◌, ℕ, if◌then◌else◌, IfErr, OnOk};
ghost use Rattle.mesh_base.specs.declared.address.Mac.{Mac};
ghost use Rattle.mesh_codec.specs.Payloads.{seen_frame};
ghost use Rattle.mesh_model.specs.Acts.Choosing.{whole_acts, probing_acts};
ghost use Rattle.mesh_model.specs.Acts.NodeLimits.{client_limit};
ghost use Rattle.mesh_model.specs.Clients.Limits.{passed_limit};
ghost use Rattle.mesh_model.specs.Clients.Log.{Given, Log};
ghost use Rattle.mesh_model.specs.Clients.Log as given;
ghost use Rattle.mesh_model.specs.Knowledge.Steps.{knowledge};
ghost use Rattle.mesh_model.specs.Packets.Numbers.{wifi_flag};
ghost use Rattle.mesh_model.specs.Routes.RouteLog.{MayTick};
ghost use Rattle.node_clients.specs.FrameRows.{given_frame};
ghost use Rattle.mesh_node.specs.NodeStands.{KeepsLog, MayTake, given_by, given_session, is_dead};
ghost use Rattle.node_ground.specs.OwnStands.{with_input};
ghost use Rattle.node_ground.specs.OwnStands.{newest_moment};
ghost use Rattle.node_ground.specs.Puts.{Answers, Leaves, Puts};

use crate::input::Input;
use crate::node::Node;
use crate::rows::link;
use mesh_algo::Algo;
use mesh_base::{Key, Mac, Millis};
use mesh_codec::ClientFrame;
use mesh_serv::Bandwidth;
use mesh_tvlv::layout::WIFI;
use node_arp::Question;
use node_clients::client_frames::frame;
use node_clients::lan_frames::lan_frame;
use node_clients::roaming::note_roamed;
use node_facts::pictures::put_picture;
use node_facts::rounds::round;
use node_ground::{Coming, GatewayPart, NodeErr, Place, Port, Setting};
use node_probes::probes::session;
use node_tables::ticks::tick;

impl<A: Algo> Node<A> {
    /// Takes what it is given, while it refused nothing: the row of the input.
    pub(crate) fn carry_out<P: Port>(
        &mut self,
        port: &mut P,
        now: Millis,
        input: &Input<'_>,
    ) -> Result<(), NodeErr>
        requires { MayTake A.stands A.queries self.old now input.now }
        ensures puts { (me : Mac) (log : Log) (number : ℕ) →
            KeepsLog A.stands A.queries self.old me log → newest_moment log ≤ now →
            let given : Given = given_by number input.now in
            Leaves P.takes P.same P.over (client_limit me log now given)
            port.old (whole_acts (A.queries me) me log now given) result port.new }
        ensures noted { (me : Mac) (log : Log) (number : ℕ) →
            KeepsLog A.stands A.queries self.old me log → newest_moment log ≤ now →
            OnOk result (KeepsLog A.stands A.queries self.new me
            (with_input (A.queries me) me log now (given_by number input.now))) }
        ensures alive { is_dead self.new ≡ is_dead self.old }
    {
        match *input {
            Input::Tick { index } => self.take_tick(port, now, index)?,
            Input::Link { from, tp, bytes } => {
                self.take_link(port, Coming { now, from, tp }, bytes)?;
            }
            Input::Lan { bytes } => self.take_lan(port, now, bytes)?,
            Input::Attach { lan, gateways } => self.attach(now, lan, gateways)?,
            Input::Frame {
                src,
                dst,
                vid,
                text,
            } => {
                let frame = ClientFrame {
                    dst,
                    src,
                    vid,
                    text,
                };
                self.take_frame(port, now, &frame)?;
            }
            Input::Gone { key } => self.lose_client(now, key),
            Input::Join { key } => self.join_group(now, key)?,
            Input::Leave { key } => self.leave_group(now, key),
            Input::Arp {
                mac,
                own_ip,
                asked_ip,
                vid,
            } => {
                let asked = Question {
                    mac,
                    own_ip,
                    asked_ip,
                    vid,
                };
                self.take_question(port, now, asked)?;
            }
            Input::Dhcp { key, text } => self.take_call(port, now, key, text)?,
            Input::Wifi(on) => self.set(now, Setting::Wifi(on)),
            Input::GwOff => self.set(now, Setting::Gateway(GatewayPart::NoPart)),
            Input::GwServer {
                down: download,
                up: upload,
            } => {
                let offered = Bandwidth { download, upload };
                self.set(now, Setting::Gateway(GatewayPart::Serves(offered)));
            }
            Input::GwClient(policy) => {
                self.set(now, Setting::Gateway(GatewayPart::Chooses(policy)));
            }
            Input::Mcast(flags) => self.set(now, Setting::Multicast(flags)),
            Input::Dat(on) => self.set(now, Setting::ArpTable(on)),
            Input::Frag(size) => self.set(now, Setting::LongestWhole(size)),
            Input::Vis(on) => self.set(now, Setting::Pictures(on)),
            Input::Alfred(mode) => self.set(now, Setting::FactStore(mode)),
            Input::Put {
                type_no,
                version,
                text,
            } => self.put_fact(now, type_no, version, text)?,
            Input::Get { type_no } => self.get_facts(port, now, type_no)?,
            Input::Ping { target } => self.take_session(port, now, target, false)?,
            Input::Trace { target } => self.take_session(port, now, target, true)?,
            Input::Reboot => self.take_reboot(port, now)?,
        }
        Ok(())
    }

    // Takes a tick of its own.
    fn take_tick<P: Port>(&mut self, port: &mut P, now: Millis, index: u64) -> Result<(), NodeErr>
        requires { (me : Mac) × (log : Log) × KeepsLog A.stands A.queries self.old me log
            × (newest_moment log ≤ now)
            × MayTick (knowledge (A.queries me) me log).routes index }
        ensures puts { (me : Mac) (log : Log) → KeepsLog A.stands A.queries self.old me log →
            newest_moment log ≤ now →
            Leaves P.takes P.same P.over (client_limit me log now (given.Tick index)) port.old
            (whole_acts (A.queries me) me log now (given.Tick index)) result port.new }
        ensures noted { (me : Mac) (log : Log) → KeepsLog A.stands A.queries self.old me log →
            newest_moment log ≤ now →
            OnOk result (KeepsLog A.stands A.queries self.new me
            (with_input (A.queries me) me log now (given.Tick index))) }
        ensures alive { is_dead self.new ≡ is_dead self.old }
    {
        let at = Place { me: self.me, now };
        tick(
            &mut self.kept,
            port,
            &mut self.locals,
            &self.bridge,
            at,
            index,
        )?;
        put_picture(&mut self.kept, &self.locals, at, index)?;
        round(&mut self.kept, port, at, index)?;
        Ok(())
    }

    // Takes a link frame: the packets in it, and behind them the clients that roamed away.
    fn take_link<P: Port>(
        &mut self,
        port: &mut P,
        came: Coming,
        bytes: &[u8],
    ) -> Result<(), NodeErr>
        requires { (me : Mac) × (log : Log) × KeepsLog A.stands A.queries self.old me log
            × (newest_moment log ≤ came.now) }
        ensures puts { (me : Mac) (log : Log) (number : ℕ) →
            KeepsLog A.stands A.queries self.old me log → newest_moment log ≤ came.now →
            let given = given.LinkFrame number came.from came.tp bytes.now in
            Leaves P.takes P.same P.over (client_limit me log came.now given) port.old
            (whole_acts (A.queries me) me log came.now given) result port.new }
        ensures noted { (me : Mac) (log : Log) (number : ℕ) →
            KeepsLog A.stands A.queries self.old me log → newest_moment log ≤ came.now →
            let given = given.LinkFrame number came.from came.tp bytes.now in
            OnOk result (KeepsLog A.stands A.queries self.new me
            (with_input (A.queries me) me log came.now given)) }
        ensures alive { is_dead self.new ≡ is_dead self.old }
    {
        link(
            &mut self.kept,
            port,
            &self.locals,
            &self.bridge,
            self.me,
            came,
            bytes,
        )?;
        note_roamed(&mut self.locals, self.me, bytes);
        Ok(())
    }

    // Takes a frame on its LAN.
    fn take_lan<P: Port>(&mut self, port: &mut P, now: Millis, bytes: &[u8]) -> Result<(), NodeErr>
        requires { (me : Mac) × (log : Log) × KeepsLog A.stands A.queries self.old me log
            × (newest_moment log ≤ now) }
        ensures puts { (me : Mac) (log : Log) → KeepsLog A.stands A.queries self.old me log →
            newest_moment log ≤ now →
            let given = given.LanFrame bytes.now in
            Leaves P.takes P.same P.over (client_limit me log now given) port.old
            (whole_acts (A.queries me) me log now given) result port.new }
        ensures noted { (me : Mac) (log : Log) → KeepsLog A.stands A.queries self.old me log →
            newest_moment log ≤ now →
            OnOk result (KeepsLog A.stands A.queries self.new me
            (with_input (A.queries me) me log now (given.LanFrame bytes.now))) }
        ensures alive { is_dead self.new ≡ is_dead self.old }
    {
        let at = Place { me: self.me, now };
        let flags = client_flags(self.kept.services.settings.wifi);
        lan_frame(
            &mut self.kept,
            port,
            &mut self.locals,
            &mut self.bridge,
            at,
            flags,
            bytes,
        )?;
        Ok(())
    }

    // Becomes a gateway of a LAN.
    fn attach(&mut self, now: Millis, lan: u16, gateways: &[Mac]) -> Result<(), NodeErr>
        ensures memory { IfErr result (λ error. error ≡ NodeErr.Memory) }
        ensures noted { (me : Mac) (log : Log) → KeepsLog A.stands A.queries self.old me log →
            newest_moment log ≤ now →
            OnOk result (KeepsLog A.stands A.queries self.new me
            (with_input (A.queries me) me log now (given.Line (given.Attach lan gateways.now)))) }
        ensures alive { is_dead self.new ≡ is_dead self.old }
    {
        self.bridge.attach(self.kept.alloc, lan, gateways)?;
        Ok(())
    }

    // Takes a frame of a client at this node.
    fn take_frame<P: Port>(
        &mut self,
        port: &mut P,
        now: Millis,
        sent: &ClientFrame<'_>,
    ) -> Result<(), NodeErr>
        requires { (me : Mac) × (log : Log) × KeepsLog A.stands A.queries self.old me log
            × (newest_moment log ≤ now) }
        ensures puts { (me : Mac) (log : Log) → KeepsLog A.stands A.queries self.old me log →
            newest_moment log ≤ now →
            let given = given_frame (seen_frame sent.now) in
            Leaves P.takes P.same P.over (client_limit me log now given) port.old
            (whole_acts (A.queries me) me log now given) result port.new }
        ensures noted { (me : Mac) (log : Log) → KeepsLog A.stands A.queries self.old me log →
            newest_moment log ≤ now →
            OnOk result (KeepsLog A.stands A.queries self.new me
            (with_input (A.queries me) me log now (given_frame (seen_frame sent.now)))) }
        ensures alive { is_dead self.new ≡ is_dead self.old }
    {
        let at = Place { me: self.me, now };
        let flags = client_flags(self.kept.services.settings.wifi);
        frame(&mut self.kept, port, &mut self.locals, at, flags, sent)?;
        Ok(())
    }

    // Begins a ping or, for `trace`, a traceroute.
    fn take_session<P: Port>(
        &mut self,
        port: &mut P,
        now: Millis,
        target: Mac,
        trace: bool,
    ) -> Result<(), NodeErr>
        ensures puts { (me : Mac) (log : Log) → KeepsLog A.stands A.queries self.old me log →
            Puts P.takes P.same P.over port.old
            (probing_acts (A.queries me) me log now target trace) result port.new }
        ensures noted { (me : Mac) (log : Log) → KeepsLog A.stands A.queries self.old me log →
            newest_moment log ≤ now →
            OnOk result (KeepsLog A.stands A.queries self.new me
            (with_input (A.queries me) me log now (given_session target trace))) }
        ensures alive { is_dead self.new ≡ is_dead self.old }
    {
        let at = Place { me: self.me, now };
        session(&mut self.kept, port, at, target, trace)?;
        Ok(())
    }

    // Notes that a client departed.
    fn lose_client(&mut self, now: Millis, key: Key)
        ensures noted { (me : Mac) (log : Log) → KeepsLog A.stands A.queries self.old me log →
            newest_moment log ≤ now →
            KeepsLog A.stands A.queries self.new me
            (with_input (A.queries me) me log now (given.Line (given.Gone key))) }
        ensures alive { is_dead self.new ≡ is_dead self.old }
    {
        self.locals.gone(key);
    }

    // Notes that a client joined a group.
    fn join_group(&mut self, now: Millis, key: Key) -> Result<(), NodeErr>
        ensures answers { (me : Mac) (log : Log) → KeepsLog A.stands A.queries self.old me log →
            newest_moment log ≤ now → Answers (passed_limit me log now (given.Line (given.Join key))) result }
        ensures noted { (me : Mac) (log : Log) → KeepsLog A.stands A.queries self.old me log →
            newest_moment log ≤ now →
            OnOk result (KeepsLog A.stands A.queries self.new me
            (with_input (A.queries me) me log now (given.Line (given.Join key)))) }
        ensures alive { is_dead self.new ≡ is_dead self.old }
    {
        self.locals.join(now, key)?;
        Ok(())
    }

    // Notes that a group was left.
    fn leave_group(&mut self, now: Millis, key: Key)
        ensures noted { (me : Mac) (log : Log) → KeepsLog A.stands A.queries self.old me log →
            newest_moment log ≤ now →
            KeepsLog A.stands A.queries self.new me
            (with_input (A.queries me) me log now (given.Line (given.Leave key))) }
        ensures alive { is_dead self.new ≡ is_dead self.old }
    {
        self.locals.leave(key);
    }
}

// The flags of a client that is sighted, with this setting for wireless clients.
pub(crate) fn client_flags(wifi: bool) -> u8
    ensures { result ≡ (if wifi then wifi_flag else 0) }
{
    if wifi { WIFI } else { 0 }
}
