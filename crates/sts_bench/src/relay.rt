//! The controller of the runs that are timed.
ghost use Rattle.std.specs.Prelude.{◌≡◌, ◌≤◌, [], ◌++◌, length, OnErr, OnOk, IfOk};
ghost use Rattle.of10_messages.specs.Valid.{IsValidMessage};
ghost use Rattle.controller_api.specs.declared.item.UpItem.TheVariants.{FromSwitch, Gone, Policy};
ghost use Rattle.sts_bench.specs.Relay.{answers, passes_on};

use controller_api::{Controller, Outbox, UpItem};
use of10_messages::{Action, Bytes, Message, Plain, one_action};
use std::alloc::{AllocError, Global};

/// How many bytes the record of a packet has.
const RECORD: usize = 36;

/// Has each packet of which a switch tells it sent out of one port, and does nothing else.
#[derive(Debug, Drop)]
pub struct Relay {
    pub port: u16,
    pub alloc: Global,
}

impl Controller for Relay {
    ghost react = { λ relay. elim [
      | FromSwitch s message ↦ record { state = relay; sent = answers relay.port s message }
      | Gone s ↦ record { state = relay; sent = [] }
      | Policy deny ↦ record { state = relay; sent = [] }
    ] };

    ghost start = { λ relay. relay };

    ghost policies = { λ relay. 0 };

    fn fresh(&self) -> Result<Relay, AllocError> {
        self.copy()
    }

    fn send(&self, item: &UpItem, out: &mut Outbox) -> Result<(), AllocError> {
        match item {
            UpItem::FromSwitch(s, message) => self.answer(*s, message, out),
            UpItem::Gone(_) | UpItem::Policy(_) => Ok(()),
        }
    }

    fn hear(&mut self, _item: &UpItem, _sent: &[(u16, Message)]) -> Result<(), AllocError> {
        Ok(())
    }

    fn copy(&self) -> Result<Relay, AllocError> {
        Ok(Relay {
            port: self.port,
            alloc: self.alloc,
        })
    }
}

impl Relay {
    fn answer(&self, s: u16, message: &Message, out: &mut Outbox) -> Result<(), AllocError>
        ensures sent { OnOk result (out.new ≡ out.old ++ answers self.now.port s message.now) }
        ensures few { length (answers self.now.port s message.now) ≤ 1 }
        ensures err { OnErr result (out.new ≡ out.old) }
    {
        match message {
            Message::PacketIn {
                in_port,
                content,
                ..
            } if content.len() == RECORD => {
                let answer = self.pass_on(*in_port, content)?;
                out.send(s, answer)
            }
            _ => Ok(()),
        }
    }

    // The word to send a packet out of the port, by the record of the packet and the port by which it came in.
    fn pass_on(&self, in_port: u16, packet: &Bytes) -> Result<Message, AllocError>
        requires { length packet.now ≡ 36 }
        ensures message { IfOk result (λ message. message ≡ passes_on self.now.port in_port packet.now) }
        ensures valid { IfOk result (λ message. IsValidMessage message) }
    {
        let actions = one_action(self.alloc, Action::output(self.port))?;
        Ok(Message::packet_out(0, in_port, actions, packet.copy()?))
    }
}
