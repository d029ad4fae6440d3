//! A controller of a few lines, used through its bound.
ghost use Rattle.std.specs.Prelude.{[], ◌∷◌, ◌+◌};
ghost use Rattle.of10_messages.specs.declared.message.Message.TheVariants.{Hello};
ghost use Rattle.controller_api.specs.Reaction.{IsValidUpItem};
ghost use Rattle.controller_api.specs.declared.item.UpItem.TheVariants.{FromSwitch, Gone, Policy};

use super::{Controller, Outbox, UpItem};
use listed::Plain;
use of10_match::Match;
use of10_messages::Message;
use std::alloc::AllocError;
use std::test::Fail;

// It greets each switch from which it hears, and counts the policies.
#[derive(Debug, Drop)]
struct Greeter {
    policies: u32,
}

impl Controller for Greeter {
    ghost react = { λ greeter. elim [
      | FromSwitch s message ↦ record { state = greeter; sent = (s, Hello 0) ∷ [] }
      | Gone s ↦ record { state = greeter; sent = [] }
      | Policy deny ↦ record { state = record { policies = greeter.policies + 1 }; sent = [] }
    ] };

    ghost start = { λ greeter. record { policies = 0 } };

    ghost policies = { λ greeter. greeter.policies };

    fn fresh(&self) -> Result<Greeter, AllocError> {
        Ok(Greeter { policies: 0 })
    }

    fn send(&self, item: &UpItem, out: &mut Outbox) -> Result<(), AllocError> {
        match item {
            UpItem::FromSwitch(s, _) => out.send(*s, Message::hello(0)),
            UpItem::Gone(_) | UpItem::Policy(_) => Ok(()),
        }
    }

    fn hear(&mut self, item: &UpItem, _sent: &[(u16, Message)]) -> Result<(), AllocError> {
        if let UpItem::Policy(_) = item {
            self.policies += 1;
        }
        Ok(())
    }

    fn copy(&self) -> Result<Greeter, AllocError> {
        Ok(Greeter {
            policies: self.policies,
        })
    }
}

// What a fresh copy of a controller sends at an item that it may hear.
fn first_words<C: Controller>(
    controller: &C,
    item: &UpItem,
    out: &mut Outbox,
) -> Result<C, AllocError>
    requires { IsValidUpItem item.now }
{
    let mut fresh = controller.copy()?.fresh()?;
    fresh.handle(item, out)?;
    Ok(fresh)
}

#[test]
fn a_controller_reacts(rt: HostRuntime) -> Result<(), Fail> {
    let greeter = Greeter { policies: 5 };
    let mut out = Outbox::new(rt.alloc());
    let hello = UpItem::FromSwitch(3, Message::hello(9));
    first_words(&greeter, &hello, &mut out)?;
    let after = first_words(&greeter, &UpItem::Policy(Match::any()), &mut out)?;
    first_words(&after, &UpItem::Gone(3), &mut out)?;
    assert_eq!(rt; after.policies, 1);
    assert!(rt; hello.copy()?.same(&hello) && !hello.same(&UpItem::Gone(3)));
    assert_eq!(rt; out.list().len(), 1);
    out.truncate(1);
    let sent = out.into_list();
    assert!(rt; sent[0].0 == 3 && sent[0].1.same(&Message::hello(0)));
    out = Outbox::new(rt.alloc());
    assert!(rt; out.list().is_empty());
    Ok(())
}
