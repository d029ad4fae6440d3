//! A switch.

ghost use Rattle.std.specs.Prelude.{◌≡◌, ◌≤◌, ◌<◌, ◌+◌, ◌^◌, All, IfOk, IfSome, OnErr, OnOk, is_some, length};
ghost use Rattle.of10_match.specs.Packet.{IsValidPacket};
ghost use Rattle.of10_messages.specs.Valid.{IsValidMessage};
ghost use Rattle.flow_table.specs.Expiry.{IsPast};
ghost use Rattle.switch_core.specs.Leaving.{IsValidOuts};
ghost use Rattle.switch_core.specs.Plan.{CanCount, counted_state, is_packet_out, planned_step};
ghost use Rattle.switch_core.specs.State.{IsState, fresh};
ghost use Rattle.switch_core.specs.Step.{HasRoomFor, handled, noticed, received};

use crate::laws::a_step_sends_few;
use crate::outs::Outs;
use crate::planned::{Counts, Planned};
use crate::state::State;
use flow_table::{TABLE_CAPACITY, Table};
use of10_match::Packet;
use of10_messages::{Message, Notice};
use std::alloc::{AllocError, Global};
use std::marker::Model;

/// A simulated OpenFlow 1.0.0 switch with one table. Contracts see its state.
///
/// After want of memory a switch is as it was before the call.
#[derive(Debug, Drop)]
pub struct Switch {
    state: State,
    alloc: Global,
}

impl Model for Switch {
    ghost use Rattle.switch_core.specs.State.{IsState};
    ghost use Rattle.switch_core.specs.declared.state.State.{State};

    ghost Value = { State };

    ghost view = { λ s. s.state };

    ghost invariant = { λ s. IsState s.state };
}

impl Switch {
    /// A switch that has just started, by its number and how many ports it has. The number and one has to fit the two bytes
    /// that it has in the addresses of ports. It takes no memory.
    pub fn fresh(alloc: Global, number: u16, ports: u16) -> Switch
        requires number { number < 65535 }
        requires some { 1 ≤ ports }
        requires most { ports ≤ 48 }
        ensures { result ≡ fresh number ports }
    {
        Switch::starting(alloc, number, ports, Table::new(alloc))
    }

    /// A switch that has just started with entries in its table.
    pub fn starting(alloc: Global, number: u16, ports: u16, table: Table) -> Switch
        requires number { number < 65535 }
        requires some { 1 ≤ ports }
        requires most { ports ≤ 48 }
        requires past { All (IsPast 0) table }
        requires small { All (λ entry. length entry.actions ≤ 8183) table }
        ensures { result ≡ record (fresh number ports) { table = table } }
    {
        // A call of the table tells that it is one: contracts see no more of it than its entries.
        prove!(table.entries().len() <= TABLE_CAPACITY);
        Switch {
            state: State {
                number,
                ports,
                table,
                clock: 0,
                next_xid: 1,
                flags: 0,
                miss_send_len: 128,
                down: 0,
            },
            alloc,
        }
    }

    /// The flow table.
    pub fn table(&self) -> &Table
        ensures { result.now ≡ self.now.table }
    {
        &self.state.table
    }

    /// Seconds since the switch started.
    pub fn now(&self) -> u32
        ensures { result ≡ self.now.clock }
    {
        self.state.clock
    }

    /// A second switch in the same state.
    pub fn copy(&self) -> Result<Switch, AllocError>
        ensures { IfOk result (λ switch. switch ≡ self.now) }
    {
        let state = &self.state;
        Ok(Switch {
            state: State {
                number: state.number,
                ports: state.ports,
                table: state.table.copy()?,
                clock: state.clock,
                next_xid: state.next_xid,
                flags: state.flags,
                miss_send_len: state.miss_send_len,
                down: state.down,
            },
            alloc: self.alloc,
        })
    }

    /// Takes a message from the controller.
    pub fn handle(&mut self, message: &Message) -> Result<Outs, AllocError>
        requires { IsValidMessage message.now }
        ensures ok { IfOk result (λ outs. handled self.old message.now ≡ record { state = self.new; up = outs.up; out = outs.out }) }
        ensures valid { IfOk result (λ outs. IsValidOuts outs) }
        ensures few { IfOk result (λ outs. length outs.up + length outs.out < 2 ^ 32) }
        ensures err { OnErr result (self.new ≡ self.old) }
    {
        // A law does nothing at run time: its clauses are facts for the proof.
        a_step_sends_few();
        self.state.handle(self.alloc, message)
    }

    /// Takes a packet that comes in by a port, whose number is taken as it stands.
    pub fn packet(&mut self, port: u16, packet: &Packet) -> Result<Outs, AllocError>
        requires { IsValidPacket packet.now }
        ensures ok { IfOk result (λ outs. received self.old port packet.now ≡ record { state = self.new; up = outs.up; out = outs.out }) }
        ensures valid { IfOk result (λ outs. IsValidOuts outs) }
        ensures few { IfOk result (λ outs. length outs.up + length outs.out < 2 ^ 32) }
        ensures err { OnErr result (self.new ≡ self.old) }
    {
        a_step_sends_few();
        self.state.receive(self.alloc, port, packet)
    }

    /// What a packet that comes in by a port will do. The switch is as it was: `carry_out` does it.
    pub fn plan_packet(&self, port: u16, packet: &Packet) -> Result<Planned, AllocError>
        requires { IsValidPacket packet.now }
        ensures step { IfOk result (λ planned. planned_step self.now planned ≡ received self.now port packet.now) }
        ensures fits { IfOk result (λ planned. CanCount self.now planned.counts) }
        ensures valid { IfOk result (λ planned. IsValidOuts planned.outs) }
        ensures few { IfOk result (λ planned. length planned.outs.up + length planned.outs.out < 2 ^ 32) }
    {
        a_step_sends_few();
        self.state.plan_packet(self.alloc, port, packet)
    }

    /// What a message will do, if it is a PACKET_OUT (a refused one is planned too). `None` for any other message.
    pub fn plan_message(&self, message: &Message) -> Result<Option<Planned>, AllocError>
        requires { IsValidMessage message.now }
        ensures kind { IfOk result (λ planned. is_some planned ≡ is_packet_out message.now) }
        ensures step { IfOk result (λ found. IfSome found (λ planned. planned_step self.now planned ≡ handled self.now message.now)) }
        ensures fits { IfOk result (λ found. IfSome found (λ planned. CanCount self.now planned.counts)) }
        ensures valid { IfOk result (λ found. IfSome found (λ planned. IsValidOuts planned.outs)) }
        ensures few { IfOk result (λ found. IfSome found (λ planned. length planned.outs.up + length planned.outs.out < 2 ^ 32)) }
    {
        a_step_sends_few();
        self.state.plan_message(self.alloc, message)
    }

    /// Does what was planned in this state, but for the sending.
    pub fn carry_out(&mut self, counts: Counts)
        requires { CanCount self.old counts }
        ensures { self.new ≡ counted_state self.old counts }
    {
        self.state.carry_out(counts);
    }

    /// Takes a notice from its surroundings. A tick must leave room in the clock, and a port must be one of the switch's.
    pub fn notice(&mut self, notice: &Notice) -> Result<Outs, AllocError>
        requires { HasRoomFor self.old notice.now }
        ensures ok { IfOk result (λ outs. noticed self.old notice.now ≡ record { state = self.new; up = outs.up; out = outs.out }) }
        ensures valid { IfOk result (λ outs. IsValidOuts outs) }
        ensures few { IfOk result (λ outs. length outs.up + length outs.out < 2 ^ 32) }
        ensures err { OnErr result (self.new ≡ self.old) }
    {
        a_step_sends_few();
        self.state.notice(self.alloc, notice)
    }
}
