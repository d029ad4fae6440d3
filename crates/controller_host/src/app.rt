//! One application of a host.
ghost use Rattle.std.specs.Prelude.{◌≡◌, ◌++◌, true, false, IfOk, IsOk, OnOk, OnErr};
ghost use Rattle.controller_api.specs.Reaction.{IsValidUpItem};
ghost use Rattle.controller_apps.specs.Learning.{is_packet};

use controller_api::{Controller, Outbox, UpItem};
use controller_apps::{Firewall, Learning};
use listed::Listed;
use of10_messages::Message;
use route_app::Routing;
use std::alloc::AllocError;

/// An application of a controller.
#[derive(Debug, Drop)]
pub enum App {
    Learning(Learning),
    Firewall(Firewall),
    Routing(Routing),
}

/// Applications of a controller, in the order in which they hear.
pub type Apps = Listed<App>;

/// What there was where an item changes an application, so that it can go back.
#[derive(Clone, Copy, Debug)]
pub(crate) enum Before {
    Known(Option<Option<u16>>),
    Joined(bool),
    Nothing,
}

impl App {
    ghost use Rattle.controller_host.specs.Hosting.{as_started, reacting};
    ghost use Rattle.controller_host.specs.Undoing.{IsApp, before_of, wants_memory};
    ghost use Rattle.controller_host.specs.declared.app.App.{App};

    /// What holds of every application: a fact for proofs.
    pub(crate) fn parts(&self)
        ensures { IsApp self.now }
    {
        if let App::Firewall(wall) = self {
            wall.parts();
        }
    }

    /// Sends what answers an item, and changes nothing of itself. After want of memory some of it may have been sent.
    pub(crate) fn send(&self, item: &UpItem, out: &mut Outbox) -> Result<(), AllocError>
        requires { IsValidUpItem item.now }
        ensures { OnOk result (out.new ≡ out.old ++ (reacting self.now item.now).sent) }
    {
        match self {
            App::Learning(learning) => learning.send(item, out),
            App::Firewall(wall) => wall.send(item, out),
            App::Routing(routing) => routing.send(item, out),
        }
    }

    /// Whether it may want memory where it hears an item.
    pub(crate) fn wants_memory(&self, item: &UpItem) -> bool
        ensures { result ≡ wants_memory self.now item.now }
    {
        match self {
            App::Learning(_) => is_packet(item),
            App::Firewall(_) => true,
            App::Routing(_) => false,
        }
    }

    /// Comes to the state after an item. After want of memory it is as it was.
    pub(crate) fn hear(&mut self, item: &UpItem) -> Result<(), AllocError>
        requires { IsValidUpItem item.now }
        ensures state { OnOk result (self.new ≡ (reacting self.old item.now).state) }
        ensures err { OnErr result (self.new ≡ self.old) }
        ensures sure { wants_memory self.old item.now ≡ false → IsOk result }
    {
        match self {
            App::Learning(learning) => learning.hear(item),
            App::Firewall(wall) => wall.hear(item),
            App::Routing(routing) => {
                routing.hear(item);
                Ok(())
            }
        }
    }

    /// What there is where an item will change it, for `undo`.
    pub(crate) fn before(&self, item: &UpItem) -> Before
        ensures { result ≡ before_of self.now item.now }
    {
        match self {
            App::Learning(learning) => Before::Known(learning.known_before(item)),
            App::Firewall(wall) => Before::Joined(wall.joined_before(item)),
            App::Routing(_) => Before::Nothing,
        }
    }

    /// Goes back to the state before an item that it heard last, where that may have wanted memory. It takes no memory.
    pub(crate) fn undo(&mut self, item: &UpItem, before: Before)
        ensures { (app : App) → IsApp app → wants_memory app item.now ≡ true → self.old ≡ (reacting app item.now).state
            → before ≡ before_of app item.now → self.new ≡ app }
    {
        match self {
            App::Learning(learning) => {
                if let Before::Known(known) = before {
                    learning.undo(item, known);
                }
            }
            App::Firewall(wall) => {
                if let Before::Joined(joined) = before {
                    wall.undo(item, joined);
                }
            }
            App::Routing(_) => {}
        }
    }

    /// The application as it starts.
    pub(crate) fn fresh(&self) -> Result<App, AllocError>
        ensures { IfOk result (λ app. app ≡ as_started self.now) }
    {
        Ok(match self {
            App::Learning(learning) => App::Learning(learning.fresh()?),
            App::Firewall(wall) => App::Firewall(wall.fresh()?),
            App::Routing(routing) => App::Routing(routing.fresh()?),
        })
    }

    /// A second application in the same state.
    pub(crate) fn copy(&self) -> Result<App, AllocError>
        ensures { IfOk result (λ app. app ≡ self.now) }
    {
        Ok(match self {
            App::Learning(learning) => App::Learning(learning.copy()?),
            App::Firewall(wall) => App::Firewall(wall.copy()?),
            App::Routing(routing) => App::Routing(routing.copy()?),
        })
    }
}

/// Whether an item is a packet that a switch sent up.
fn is_packet(item: &UpItem) -> bool
    ensures { result ≡ is_packet item.now }
{
    matches!(item, UpItem::FromSwitch(_, Message::PacketIn { .. }))
}
