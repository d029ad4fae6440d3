//! What a controller sends.
ghost use Rattle.std.specs.Prelude.{◌≡◌, ◌∷◌, ◌++◌, [], take, OnOk, OnErr};
ghost use Rattle.of10_messages.specs.Valid.{IsValidMessage};
ghost use Rattle.controller_api.specs.Reaction.{AreValidMessages};

use listed::Listed;
use of10_messages::Message;
use std::alloc::{AllocError, Global};
use std::marker::Model;

/// Messages to switches, each with the number of its switch, in order.
pub type SentMessages = Listed<(u16, Message)>;

/// The messages that a controller has sent so far. Contracts see the list of them; all are valid.
#[derive(Debug, Drop)]
pub struct Outbox {
    messages: SentMessages,
}

impl Model for Outbox {
    ghost use Rattle.std.specs.Prelude.{ℕ, List};
    ghost use Rattle.of10_messages.specs.declared.message.Message.{Message};
    ghost use Rattle.controller_api.specs.Reaction.{AreValidMessages};

    ghost Value = { List (ℕ × Message) };

    ghost view = { λ o. o.messages };

    ghost invariant = { λ o. AreValidMessages o.messages };
}

impl Outbox {
    /// Nothing was sent yet. It takes no memory.
    pub fn new(alloc: Global) -> Outbox
        ensures { result ≡ [] }
    {
        Outbox {
            messages: Listed::new(alloc),
        }
    }

    /// The messages that were sent, in order.
    pub fn list(&self) -> &[(u16, Message)]
        ensures list { result.now ≡ self.now }
        ensures valid { AreValidMessages self.now }
    {
        self.messages.as_slice()
    }

    /// The messages that were sent, in order.
    pub fn into_list(self) -> SentMessages
        ensures list { result ≡ self }
        ensures valid { AreValidMessages result }
    {
        let Outbox { messages } = self;
        messages
    }

    /// Sends a message to a switch.
    pub fn send(&mut self, s: u16, message: Message) -> Result<(), AllocError>
        requires { IsValidMessage message }
        ensures ok { OnOk result (self.new ≡ self.old ++ (s, message) ∷ []) }
        ensures err { OnErr result (self.new ≡ self.old) }
    {
        self.messages.push((s, message))
    }

    /// Takes back all but the first `len` messages.
    pub fn truncate(&mut self, len: usize)
        ensures { self.new ≡ take len self.old }
    {
        self.messages.truncate(len);
    }
}
