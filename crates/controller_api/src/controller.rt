//! The controller of some switches.
ghost use Rattle.std.specs.Prelude.{◌≡◌, ◌<◌, ◌++◌, ◌^◌, ℕ, length, IfOk, OnOk, OnErr};
ghost use Rattle.controller_api.specs.Reaction.{CountsPolicies, IsValidUpItem, Reaction};
ghost use Rattle.controller_api.specs.declared.item.UpItem.{UpItem};

use crate::item::UpItem;
use crate::outbox::Outbox;
use of10_messages::Message;
use std::alloc::AllocError;

/// A controller: a state that reacts to what it hears.
///
/// A contract sees three meanings of it: `react`, the state that it comes to at an item and the messages that it sends;
/// `start`, the state with which it starts, which a state tells for itself; and `policies`, a number of its state that is 0
/// at the start and rises by at most one with a policy, and by nothing else.
pub trait Controller: Send + Sync + Drop {
    ghost react: { Self → UpItem → Reaction Self };

    ghost start: { Self → Self };

    ghost policies: { Self → ℕ };

    /// The controller in the state with which it starts.
    fn fresh(&self) -> Result<Self, AllocError>
        ensures start { IfOk result (λ c. c ≡ start self.now) }
        ensures policies { IfOk result (λ c. policies c ≡ 0) };

    /// Puts what it sends at an item to the end of `out`, and changes nothing of itself. After want of memory the messages are as
    /// they were.
    fn send(&self, item: &UpItem, out: &mut Outbox) -> Result<(), AllocError>
        requires item { IsValidUpItem item.now }
        requires policies { policies self.now < 2 ^ 24 }
        ensures sent { OnOk result (out.new ≡ out.old ++ (react self.now item.now).sent) }
        ensures few { OnOk result (length (react self.now item.now).sent < 2 ^ 32) }
        ensures unsent { OnErr result (out.new ≡ out.old) };

    /// Comes to the state after an item, where `sent` is what it sends at it. After want of memory it is as it was.
    fn hear(&mut self, item: &UpItem, sent: &[(u16, Message)]) -> Result<(), AllocError>
        requires item { IsValidUpItem item.now }
        requires policies { policies self.old < 2 ^ 24 }
        requires sent { sent.now ≡ (react self.old item.now).sent }
        ensures state { OnOk result (self.new ≡ (react self.old item.now).state) }
        ensures policies { OnOk result (CountsPolicies item.now (policies self.old) (policies self.new)) }
        ensures err { OnErr result (self.new ≡ self.old) };

    /// A second controller in the same state.
    fn copy(&self) -> Result<Self, AllocError>
        ensures { IfOk result (λ c. c ≡ self.now) };

    /// Sends what answers an item and hears it. After want of memory the controller and the messages are as they were.
    final fn handle(&mut self, item: &UpItem, out: &mut Outbox) -> Result<(), AllocError>
        requires item { IsValidUpItem item.now }
        requires policies { policies self.old < 2 ^ 24 }
        ensures state { OnOk result (self.new ≡ (react self.old item.now).state) }
        ensures sent { OnOk result (out.new ≡ out.old ++ (react self.old item.now).sent) }
        ensures few { OnOk result (length (react self.old item.now).sent < 2 ^ 32) }
        ensures policies { OnOk result (CountsPolicies item.now (policies self.old) (policies self.new)) }
        ensures err { OnErr result (self.new ≡ self.old) }
        ensures unsent { OnErr result (out.new ≡ out.old) }
    {
        let before = out.list().len();
        self.send(item, out)?;
        match self.hear(item, &out.list()[before..]) {
            Ok(()) => Ok(()),
            Err(error) => {
                out.truncate(before);
                Err(error)
            }
        }
    }
}
