//! The steps of a switch. Each takes the memory that it needs before it changes anything that it could not undo.

ghost use Rattle.std.specs.Prelude.{◌≡◌, ◌≤◌, ◌<◌, ◌+◌, ◌^◌, ◌∷◌, [], All, IfOk, IfSome, OnErr, OnOk, filter, is_some, length, map, take, true};
ghost use Rattle.std.specs.List.{filter_map, flat_map};
ghost use Rattle.std.specs.Option.{option_to_list};
ghost use Rattle.of10_match.specs.Header.{IsValidHeader};
ghost use Rattle.of10_match.specs.Packet.{IsValidPacket};
ghost use Rattle.of10_messages.specs.Valid.{IsValidAction, IsValidFlowMod, IsValidMessage};
ghost use Rattle.of10_messages.specs.Wire.{canon_bytes, message_xid};
ghost use Rattle.of10_messages.specs.declared.message.Message.TheVariants.{Error};
ghost use Rattle.of10_messages.specs.declared.notice.Notice.TheVariants.{Join, Port, Tick};
ghost use Rattle.flow_table.specs.Best.{best_place};
ghost use Rattle.flow_table.specs.Entry.{IsTable, IsValidEntry};
ghost use Rattle.flow_table.specs.Expiry.{IsPast};
ghost use Rattle.switch_core.specs.Leaving.{IsValidLeaving, IsValidOuts, leave_all, nothing_sent};
ghost use Rattle.switch_core.specs.Plan.{CanCount, counted_state, is_packet_out, planned_step};
ghost use Rattle.switch_core.specs.State.{IsState};
ghost use Rattle.switch_core.specs.Step.{HasRoomFor, applied, command_of, counted_at, flow_mod, handled, hit_by, is_delete, noticed, packet_out, received, refuses, removals, sent_by, sent_of, sent_out, sent_to, wants_removal};
ghost use Rattle.switch_core.specs.declared.leaving.Leaving.TheVariants.{Told};
ghost use Rattle.switch_core.specs.declared.leaving.News.TheVariants.{Removal};

use crate::leaving::{Leaving, News};
use crate::outs::Outs;
use crate::planned::{Counts, Planned};
use crate::ports::{features, port_desc, with_port};
use crate::refusals::{actions_refusal, flow_mod_refusal};
use crate::sending::Sending;
use crate::state::State;
use flow_table::{
    Command, Entry, Gone10, Output, Removed, TABLE_CAPACITY, TableNo, Target, outcome,
};
use listed::{Listed, Plain};
use of10_match::{OFPP_TABLE, Packet};
use of10_messages::errors::*;
use of10_messages::laws::lengths_of_messages;
use of10_messages::{
    Action, FlowMod, Message, Notice, OFPFC_ADD, OFPFC_DELETE, OFPFC_MODIFY, OFPFC_MODIFY_STRICT,
    OFPFF_SEND_FLOW_REM, OFPR_ACTION, OFPR_NO_MATCH, OFPRR_DELETE, OFPT_VENDOR,
};
use std::alloc::{AllocError, Global};

impl State {
    // ---- packets

    /// A packet comes in by a port.
    pub(crate) fn receive(
        &mut self,
        alloc: Global,
        in_port: u16,
        packet: &Packet,
    ) -> Result<Outs, AllocError>
        requires state { IsState self.old }
        requires packet { IsValidPacket packet.now }
        ensures ok { IfOk result (λ outs. received self.old in_port packet.now ≡ record { state = self.new; up = outs.up; out = outs.out }) }
        ensures valid { IfOk result (λ outs. IsValidOuts outs) }
        ensures err { OnErr result (self.new ≡ self.old) }
        ensures state { IsState self.new }
    {
        let Planned { outs, counts } = self.plan_packet(alloc, in_port, packet)?;
        self.carry_out(counts);
        Ok(outs)
    }

    /// What a packet that comes in by a port will do.
    pub(crate) fn plan_packet(
        &self,
        alloc: Global,
        in_port: u16,
        packet: &Packet,
    ) -> Result<Planned, AllocError>
        requires state { IsState self.now }
        requires packet { IsValidPacket packet.now }
        ensures step { IfOk result (λ planned. planned_step self.now planned ≡ received self.now in_port packet.now) }
        ensures fits { IfOk result (λ planned. CanCount self.now planned.counts) }
        ensures valid { IfOk result (λ planned. IsValidOuts planned.outs) }
    {
        let best = self.table.best_place(in_port, &packet.header);
        let mut sending = Sending::new(alloc, self.next_xid);
        self.send_packet(alloc, &mut sending, best, in_port, packet)?;
        Ok(planned(sending, hits_of(alloc, best)?))
    }

    /// Does what was planned, but for the sending.
    pub(crate) fn carry_out(&mut self, counts: Counts)
        requires state { IsState self.old }
        requires fits { CanCount self.old counts }
        ensures counted { self.new ≡ counted_state self.old counts }
        ensures state { IsState self.new }
    {
        self.count_at(counts.hits.as_slice());
        // A call of the table tells that it is one still.
        prove!(self.table.entries().len() <= TABLE_CAPACITY);
        self.next_xid = counts.next_xid;
    }

    /// Counts a packet now for the entry at each of these places.
    fn count_at(&mut self, places: &[usize])
        requires state { IsState self.old }
        requires places { All (λ place. place < length self.old.table) places.now }
        ensures { self.new ≡ record self.old { table = counted_at self.old.clock self.old.table places.now } }
    {
        for place in places {
            self.table.count_at(*place, self.clock);
        }
    }

    /// Sends what is sent of a packet that comes in by a port, and whose best entry stands at a place.
    fn send_packet(
        &self,
        alloc: Global,
        sending: &mut Sending,
        best: Option<usize>,
        in_port: u16,
        packet: &Packet,
    ) -> Result<(), AllocError>
        requires state { IsState self.now }
        requires packet { IsValidPacket packet.now }
        requires best { best ≡ best_place self.now.table in_port packet.now.header }
        ensures { OnOk result (sending.new.sent ≡ leave_all sending.old.sent (sent_of self.now in_port packet.now)) }
    {
        match best {
            Some(place) => {
                let actions = self.table.entries()[place].actions.as_slice();
                let outputs = outcome(alloc, actions, self.ports, in_port, &packet.header)?;
                send_outputs(alloc, sending, outputs.as_slice(), in_port, packet.tag)
            }
            None => sending.send(
                alloc,
                Leaving::Told(News::Arrival {
                    port: in_port,
                    reason: OFPR_NO_MATCH,
                    packet: *packet,
                }),
            ),
        }
    }

    /// Hands out what was sent, and keeps the xid of the next message.
    fn finish(&mut self, sending: Sending) -> Outs
        ensures state { self.new ≡ record self.old { next_xid = sending.sent.next_xid } }
        ensures up { result.up ≡ sending.sent.up }
        ensures out { result.out ≡ sending.sent.out }
        ensures valid { IsValidOuts result }
        ensures next_xid { sending.sent.next_xid < 2 ^ 32 }
        ensures table { IsTable self.new.table }
    {
        // A call of the table tells that it is one still: contracts see no more of it than its entries.
        prove!(self.table.entries().len() <= TABLE_CAPACITY);
        let (outs, next_xid) = sending.finish();
        self.next_xid = next_xid;
        outs
    }

    // ---- PACKET_OUT

    /// What a PACKET_OUT, the request, with its fields, will do.
    fn plan_packet_out(
        &self,
        alloc: Global,
        request: &Message,
        in_port: u16,
        actions: &[Action],
        content: &[u8],
    ) -> Result<Planned, AllocError>
        requires state { IsState self.now }
        requires request { IsValidMessage request.now }
        requires actions { All IsValidAction actions.now }
        ensures step { IfOk result (λ planned. planned_step self.now planned ≡ packet_out self.now request.now in_port actions.now content.now) }
        ensures fits { IfOk result (λ planned. CanCount self.now planned.counts) }
        ensures valid { IfOk result (λ planned. IsValidOuts planned.outs) }
    {
        if let Some((kind, code)) = actions_refusal(true, self.ports, actions) {
            return self.plan_refusal(alloc, request, kind, code);
        }
        if content.len() != 36 {
            return self.plan_refusal(alloc, request, OFPET_BAD_REQUEST, OFPBRC_BAD_LEN);
        }
        match content.first_chunk::<36>() {
            Some(record) => {
                self.plan_actions(alloc, in_port, actions, &Packet::from_record(record))
            }
            None => unreachable!(),
        }
    }

    /// A PACKET_OUT, the request, with its fields.
    fn packet_out(
        &mut self,
        alloc: Global,
        request: &Message,
        in_port: u16,
        actions: &[Action],
        content: &[u8],
    ) -> Result<Outs, AllocError>
        requires state { IsState self.old }
        requires request { IsValidMessage request.now }
        requires actions { All IsValidAction actions.now }
        ensures ok { IfOk result (λ outs. packet_out self.old request.now in_port actions.now content.now
            ≡ record { state = self.new; up = outs.up; out = outs.out }) }
        ensures valid { IfOk result (λ outs. IsValidOuts outs) }
        ensures err { OnErr result (self.new ≡ self.old) }
        ensures state { IsState self.new }
    {
        let Planned { outs, counts } = self.plan_packet_out(
            alloc, request, in_port, actions, content,
        )?;
        self.carry_out(counts);
        Ok(outs)
    }

    /// What a request that is refused will do.
    fn plan_refusal(
        &self,
        alloc: Global,
        request: &Message,
        kind: u16,
        code: u16,
    ) -> Result<Planned, AllocError>
        requires state { IsState self.now }
        requires request { IsValidMessage request.now }
        ensures step { IfOk result (λ planned. planned_step self.now planned ≡ refuses self.now request.now kind code) }
        ensures fits { IfOk result (λ planned. CanCount self.now planned.counts) }
        ensures valid { IfOk result (λ planned. IsValidOuts planned.outs) }
    {
        let outs = refuse(alloc, request, kind, code)?;
        let counts = Counts {
            hits: Listed::new(alloc),
            next_xid: self.next_xid,
        };
        Ok(Planned { outs, counts })
    }

    /// What actions will do that are applied to a packet that came in by a port.
    fn plan_actions(
        &self,
        alloc: Global,
        in_port: u16,
        actions: &[Action],
        packet: &Packet,
    ) -> Result<Planned, AllocError>
        requires state { IsState self.now }
        requires actions { All IsValidAction actions.now }
        requires packet { IsValidPacket packet.now }
        ensures step { IfOk result (λ planned. planned_step self.now planned ≡ applied self.now in_port actions.now packet.now) }
        ensures fits { IfOk result (λ planned. CanCount self.now planned.counts) }
        ensures valid { IfOk result (λ planned. IsValidOuts planned.outs) }
    {
        let outputs = outcome(alloc, actions, self.ports, in_port, &packet.header)?;
        let mut sending = Sending::new(alloc, self.next_xid);
        let hits = self.send_out(alloc, &mut sending, outputs.as_slice(), in_port, packet.tag)?;
        Ok(planned(sending, Listed::of(hits)))
    }

    /// Sends what the outputs of a PACKET_OUT send, and answers where the entries stand that took those to the table.
    fn send_out(
        &self,
        alloc: Global,
        sending: &mut Sending,
        outputs: &[Output],
        in_port: u16,
        tag: u32,
    ) -> Result<Vec<usize>, AllocError>
        requires state { IsState self.now }
        requires outputs { All (λ output. IsValidHeader output.header) outputs.now }
        ensures sent { OnOk result (sending.new.sent ≡ leave_all sending.old.sent (flat_map (sent_out self.now in_port tag) outputs.now)) }
        ensures hits { IfOk result (λ hits. hits.items ≡ filter_map (hit_by self.now in_port) outputs.now) }
    {
        let mut hits = Vec::new(alloc);
        for output in outputs {
            let hit = self.send_one(alloc, sending, output, in_port, tag)?;
            if let Some(place) = hit {
                hits.push(place)?;
            }
        }
        Ok(hits)
    }

    /// Sends what one output of a PACKET_OUT sends, and answers where the entry stands that took it, if it went to the table.
    fn send_one(
        &self,
        alloc: Global,
        sending: &mut Sending,
        output: &Output,
        in_port: u16,
        tag: u32,
    ) -> Result<Option<usize>, AllocError>
        requires state { IsState self.now }
        requires output { IsValidHeader output.now.header }
        ensures sent { OnOk result (sending.new.sent ≡ leave_all sending.old.sent (sent_out self.now in_port tag output.now)) }
        ensures hit { IfOk result (λ hit. hit ≡ hit_by self.now in_port output.now) }
    {
        let packet = Packet {
            header: output.header,
            tag,
        };
        match output.target {
            Target::Port(OFPP_TABLE) => {
                let best = self.table.best_place(in_port, &packet.header);
                self.send_packet(alloc, sending, best, in_port, &packet)?;
                Ok(best)
            }
            _ => {
                sending.send(alloc, leaving_by(output.target, in_port, packet))?;
                Ok(None)
            }
        }
    }

    // ---- FLOW_MOD

    /// A FLOW_MOD, the request, with its fields.
    fn flow_mod(
        &mut self,
        alloc: Global,
        request: &Message,
        mods: &FlowMod,
    ) -> Result<Outs, AllocError>
        requires state { IsState self.old }
        requires request { IsValidMessage request.now }
        requires mods { IsValidFlowMod mods.now }
        requires small { length mods.now.actions ≤ 8183 }
        ensures ok { IfOk result (λ outs. flow_mod self.old request.now mods.now ≡ record { state = self.new; up = outs.up; out = outs.out }) }
        ensures valid { IfOk result (λ outs. IsValidOuts outs) }
        ensures err { OnErr result (self.new ≡ self.old) }
        ensures state { IsState self.new }
    {
        if let Some((kind, code)) = flow_mod_refusal(self.ports, mods) {
            return refuse(alloc, request, kind, code);
        }
        let how = command_of(mods.command);
        let mut sending = self.sending_for(alloc, how)?;
        match self.table.command(how, mods, self.clock) {
            Ok(effect) => {
                tell_removals(&mut sending, how, effect.removed, self.clock);
                Ok(self.finish(sending))
            }
            Err(TableNo::Full) => refuse(
                alloc,
                request,
                OFPET_FLOW_MOD_FAILED,
                OFPFMFC_ALL_TABLES_FULL,
            ),
            Err(TableNo::Overlap { .. }) => refuse(
                alloc,
                request,
                OFPET_FLOW_MOD_FAILED,
                OFPFMFC_OVERLAP,
            ),
            Err(TableNo::OutOfMemory) => Err(AllocError),
        }
    }

    /// Nothing was sent yet. Before a DELETE there is room to tell of each entry, so that it can't fail once entries are gone.
    fn sending_for(&self, alloc: Global, how: Command) -> Result<Sending, AllocError>
        ensures sent { IfOk result (λ sending. sending.sent ≡ nothing_sent self.now.next_xid) }
        ensures room { IfOk result (λ sending. is_delete how ≡ true → length self.now.table ≤ sending.spare) }
    {
        let mut sending = Sending::new(alloc, self.next_xid);
        if is_delete(how) {
            sending.reserve(self.table.entries().len())?;
        }
        Ok(sending)
    }

    // ---- messages

    /// What a message will do, if it is a PACKET_OUT.
    pub(crate) fn plan_message(
        &self,
        alloc: Global,
        message: &Message,
    ) -> Result<Option<Planned>, AllocError>
        requires state { IsState self.now }
        requires message { IsValidMessage message.now }
        ensures kind { IfOk result (λ found. is_some found ≡ is_packet_out message.now) }
        ensures step { IfOk result (λ found. IfSome found (λ planned. planned_step self.now planned ≡ handled self.now message.now)) }
        ensures fits { IfOk result (λ found. IfSome found (λ planned. CanCount self.now planned.counts)) }
        ensures valid { IfOk result (λ found. IfSome found (λ planned. IsValidOuts planned.outs)) }
    {
        match message {
            Message::PacketOut {
                in_port,
                actions,
                content,
                ..
            } => {
                let actions = actions.as_slice();
                let content = content.as_slice();
                let planned = self.plan_packet_out(alloc, message, *in_port, actions, content)?;
                Ok(Some(planned))
            }
            _ => Ok(None),
        }
    }

    /// A message from the controller.
    pub(crate) fn handle(&mut self, alloc: Global, message: &Message) -> Result<Outs, AllocError>
        requires state { IsState self.old }
        requires message { IsValidMessage message.now }
        ensures ok { IfOk result (λ outs. handled self.old message.now ≡ record { state = self.new; up = outs.up; out = outs.out }) }
        ensures valid { IfOk result (λ outs. IsValidOuts outs) }
        ensures err { OnErr result (self.new ≡ self.old) }
        ensures state { IsState self.new }
    {
        lengths_of_messages();
        match message {
            Message::Hello { .. } | Message::Error { .. } | Message::EchoReply { .. } => Ok(silence(
                alloc,
            )),
            Message::EchoRequest { xid, content } => {
                answer(alloc, Message::echo_reply(*xid, content.copy()?))
            }
            Message::FeaturesRequest { xid } => {
                answer(alloc, Message::features_reply(*xid, features(alloc, self)?))
            }
            Message::GetConfigRequest { xid } => answer(
                alloc,
                Message::get_config_reply(*xid, self.flags, self.miss_send_len),
            ),
            Message::SetConfig {
                flags,
                miss_send_len,
                ..
            } => {
                self.flags = *flags;
                self.miss_send_len = *miss_send_len;
                Ok(silence(alloc))
            }
            Message::BarrierRequest { xid } => answer(alloc, Message::barrier_reply(*xid)),
            Message::FlowMod { mods, .. } => self.flow_mod(alloc, message, mods),
            Message::PacketOut {
                in_port,
                actions,
                content,
                ..
            } => {
                let actions = actions.as_slice();
                let content = content.as_slice();
                self.packet_out(alloc, message, *in_port, actions, content)
            }
            Message::Other {
                kind: OFPT_VENDOR,
                ..
            } => refuse(alloc, message, OFPET_BAD_REQUEST, OFPBRC_BAD_VENDOR),
            _ => refuse(alloc, message, OFPET_BAD_REQUEST, OFPBRC_BAD_TYPE),
        }
    }

    // ---- notices

    /// A notice from the switch's surroundings.
    pub(crate) fn notice(&mut self, alloc: Global, notice: &Notice) -> Result<Outs, AllocError>
        requires state { IsState self.old }
        requires room { HasRoomFor self.old notice.now }
        ensures ok { IfOk result (λ outs. noticed self.old notice.now ≡ record { state = self.new; up = outs.up; out = outs.out }) }
        ensures valid { IfOk result (λ outs. IsValidOuts outs) }
        ensures err { OnErr result (self.new ≡ self.old) }
        ensures state { IsState self.new }
    {
        match *notice {
            Notice::Tick(seconds) => self.tick(alloc, seconds),
            Notice::Port { port, down } => self.port_change(alloc, port, down),
            Notice::Join { down } => self.join(alloc, down),
        }
    }

    /// Seconds pass.
    fn tick(&mut self, alloc: Global, seconds: u32) -> Result<Outs, AllocError>
        requires state { IsState self.old }
        requires room { self.old.clock + seconds < 2 ^ 32 }
        ensures ok { IfOk result (λ outs. noticed self.old (Tick seconds) ≡ record { state = self.new; up = outs.up; out = outs.out }) }
        ensures valid { IfOk result (λ outs. IsValidOuts outs) }
        ensures err { OnErr result (self.new ≡ self.old) }
        ensures state { IsState self.new }
    {
        let now = self.clock + seconds;
        let mut sending = Sending::new(alloc, self.next_xid);
        sending.reserve(self.table.entries().len())?;
        let gone = self.table.expire(now)?;
        self.clock = now;
        tell_gone(&mut sending, gone, now);
        Ok(self.finish(sending))
    }

    /// A port goes down or comes up.
    fn port_change(&mut self, alloc: Global, port: u16, down: bool) -> Result<Outs, AllocError>
        requires state { IsState self.old }
        requires some { 1 ≤ port }
        requires most { port ≤ self.old.ports }
        ensures ok { IfOk result (λ outs. noticed self.old (Port port down) ≡ record { state = self.new; up = outs.up; out = outs.out }) }
        ensures valid { IfOk result (λ outs. IsValidOuts outs) }
        ensures err { OnErr result (self.new ≡ self.old) }
        ensures state { IsState self.new }
    {
        let before = self.down;
        self.down = with_port(before, port, down);
        let mut sending = Sending::new(alloc, self.next_xid);
        let news = News::PortChange(port_desc(self, port));
        if let Err(no) = sending.send(alloc, Leaving::Told(news)) {
            self.down = before;
            return Err(no);
        }
        Ok(self.finish(sending))
    }

    /// The switch has come to its controller.
    fn join(&mut self, alloc: Global, down: u64) -> Result<Outs, AllocError>
        requires state { IsState self.old }
        ensures ok { IfOk result (λ outs. noticed self.old (Join down) ≡ record { state = self.new; up = outs.up; out = outs.out }) }
        ensures valid { IfOk result (λ outs. IsValidOuts outs) }
        ensures err { OnErr result (self.new ≡ self.old) }
        ensures state { IsState self.new }
    {
        let mut sending = Sending::new(alloc, self.next_xid);
        sending.send(alloc, Leaving::Told(News::Greeting))?;
        self.down = down;
        Ok(self.finish(sending))
    }
}

// ---- forms of an answer

/// Nothing is sent.
fn silence(alloc: Global) -> Outs
    ensures up { result.up ≡ [] }
    ensures out { result.out ≡ [] }
    ensures valid { IsValidOuts result }
{
    Outs {
        up: Listed::new(alloc),
        out: Listed::new(alloc),
    }
}

/// One message is the answer.
fn answer(alloc: Global, message: Message) -> Result<Outs, AllocError>
    requires { IsValidMessage message }
    ensures up { IfOk result (λ outs. outs.up ≡ message ∷ []) }
    ensures out { IfOk result (λ outs. outs.out ≡ []) }
    ensures valid { IfOk result (λ outs. IsValidOuts outs) }
{
    let mut outs = silence(alloc);
    outs.up.push(message)?;
    Ok(outs)
}

/// One ERROR is the answer.
fn refuse(alloc: Global, request: &Message, kind: u16, code: u16) -> Result<Outs, AllocError>
    requires { IsValidMessage request.now }
    ensures up { IfOk result (λ outs. outs.up ≡ Error (message_xid request.now) kind code (take 64 (canon_bytes request.now)) ∷ []) }
    ensures out { IfOk result (λ outs. outs.out ≡ []) }
    ensures valid { IfOk result (λ outs. IsValidOuts outs) }
{
    answer(alloc, Message::error(alloc, kind, code, request)?)
}

// ---- plans

/// The step that sends this and counts these entries.
fn planned(sending: Sending, hits: Listed<usize>) -> Planned
    ensures up { result.outs.up ≡ sending.sent.up }
    ensures out { result.outs.out ≡ sending.sent.out }
    ensures hits { result.counts.hits ≡ hits }
    ensures next_xid { result.counts.next_xid ≡ sending.sent.next_xid }
    ensures valid { IsValidOuts result.outs }
{
    let (outs, next_xid) = sending.finish();
    let counts = Counts { hits, next_xid };
    Planned { outs, counts }
}

/// The place of a best entry, if there is one, as a list.
fn hits_of(alloc: Global, best: Option<usize>) -> Result<Listed<usize>, AllocError>
    ensures { IfOk result (λ hits. hits ≡ option_to_list best) }
{
    match best {
        Some(place) => Ok(Listed::of(vec![in alloc; place]?)),
        None => Ok(Listed::new(alloc)),
    }
}

// ---- what outputs and removals send

/// What one output of a packet that came in by a port sends.
fn leaving_by(target: Target, in_port: u16, packet: Packet) -> Leaving
    requires { IsValidPacket packet }
    ensures leaving { result ≡ sent_to in_port target packet }
    ensures valid { IsValidLeaving result }
{
    match target {
        Target::Port(port) => Leaving::Emitted { port, packet },
        Target::Controller => Leaving::Told(News::Arrival {
            port: in_port,
            reason: OFPR_ACTION,
            packet,
        }),
    }
}

/// Sends what the outputs of a packet that came in by a port send.
fn send_outputs(
    alloc: Global,
    sending: &mut Sending,
    outputs: &[Output],
    in_port: u16,
    tag: u32,
) -> Result<(), AllocError>
    requires { All (λ output. IsValidHeader output.header) outputs.now }
    ensures { OnOk result (sending.new.sent ≡ leave_all sending.old.sent (map (sent_by in_port tag) outputs.now)) }
{
    for output in outputs {
        let packet = Packet {
            header: output.header,
            tag,
        };
        sending.send(alloc, leaving_by(output.target, in_port, packet))?;
    }
    Ok(())
}

/// Whether the controller wants to know when the entry goes.
fn wants_removal(entry: &Entry) -> bool
    ensures { result ≡ wants_removal entry.now }
{
    entry.flags & OFPFF_SEND_FLOW_REM != 0
}

/// Tells of the entries that a command took out, if it is a DELETE; then there is room for all of them.
fn tell_removals(sending: &mut Sending, how: Command, removed: Removed, now: u32)
    requires entries { is_delete how ≡ true → All IsValidEntry removed }
    requires past { is_delete how ≡ true → All (IsPast now) removed }
    requires room { is_delete how ≡ true → length removed ≤ sending.old.spare }
    ensures { sending.new.sent ≡ leave_all sending.old.sent (removals how now removed) }
{
    if is_delete(how) {
        tell_removed(sending, removed, now);
    }
}

/// Tells of the entries that a DELETE took out, where there is room for all of them.
fn tell_removed(sending: &mut Sending, removed: Removed, now: u32)
    requires entries { All IsValidEntry removed }
    requires past { All (IsPast now) removed }
    requires room { length removed ≤ sending.old.spare }
    ensures { sending.new.sent ≡ leave_all sending.old.sent (map (λ entry. Told (Removal entry 2 now)) (filter wants_removal removed)) }
{
    for entry in removed.into_vec() {
        if wants_removal(&entry) {
            sending.tell_removal(entry, OFPRR_DELETE, now);
        }
    }
}

/// Tells of the entries that ran out, where there is room for all of them.
fn tell_gone(sending: &mut Sending, gone: Gone10, now: u32)
    requires entries { All (λ late. IsValidEntry late.0) gone }
    requires past { All (λ late. late.0.added ≤ now) gone }
    requires room { length gone ≤ sending.old.spare }
    ensures { sending.new.sent ≡ leave_all sending.old.sent (map (λ late. Told (Removal late.0 late.1 now)) (filter (λ late. wants_removal late.0) gone)) }
{
    for (entry, reason) in gone.into_vec() {
        if wants_removal(&entry) {
            sending.tell_removal(entry, reason, now);
        }
    }
}

// ---- commands

/// The command of a number that is not refused.
fn command_of(number: u16) -> Command
    ensures { result ≡ command_of number }
{
    match number {
        OFPFC_ADD => Command::Add,
        OFPFC_MODIFY => Command::Modify,
        OFPFC_MODIFY_STRICT => Command::ModifyStrict,
        OFPFC_DELETE => Command::Delete,
        _ => Command::DeleteStrict,
    }
}

/// Whether a command takes entries out and adds none.
fn is_delete(how: Command) -> bool
    ensures { result ≡ is_delete how }
{
    matches!(how, Command::Delete | Command::DeleteStrict)
}
