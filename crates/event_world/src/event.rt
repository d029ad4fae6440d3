//! What can happen in the machine.
ghost use Rattle.std.specs.Prelude.{◌≡◌};
ghost use Rattle.event_world.specs.Events.{actor_of, event_of, input_count, number_of, pool_name};

use pool_book::{Actor, PoolName};

/// One step of the machine. An internal event takes the first item of a pool and names it by its number.
#[derive(Clone, Copy, Debug, PartialEq, Eq)]
pub enum Event {
    /// The script's line at this position, from 0, is applied.
    In(u32),
    /// Switch `s` takes a message from its controller.
    Ctl { s: u16, item: u64 },
    /// Switch `s` takes the packet that waits first at its port `p`.
    Pkt { s: u16, p: u16, item: u64 },
    /// Switch `s` takes a notice.
    Note { s: u16, item: u64 },
    /// Controller `c` takes a message from switch `s`, or hears that the channel to it is gone.
    App { c: u16, s: u16, item: u64 },
    /// Controller `c` takes a policy.
    Admin { c: u16, item: u64 },
    /// Host `h` receives a packet.
    Recv { h: u16, item: u64 },
}

impl Event {
    /// Who takes the step: the script for an input, else whose pool it is.
    pub fn actor(&self) -> Actor
        ensures { result ≡ actor_of self.now }
    {
        match *self {
            Event::In(_) => Actor::Script,
            Event::Ctl { s, .. } | Event::Pkt { s, .. } | Event::Note { s, .. } => Actor::Switch(s),
            Event::App { c, .. } | Event::Admin { c, .. } => Actor::Controller(c),
            Event::Recv { h, .. } => Actor::Host(h),
        }
    }

    /// The pool that an internal event takes from; an input takes from none.
    pub fn pool(&self) -> Option<PoolName>
        ensures { result ≡ pool_name self.now }
    {
        match *self {
            Event::In(_) => None,
            Event::Ctl { s, .. } => Some(PoolName::Ctl(s)),
            Event::Pkt { s, p, .. } => Some(PoolName::Pkt { s, p }),
            Event::Note { s, .. } => Some(PoolName::Note(s)),
            Event::App { c, s, .. } => Some(PoolName::App { c, s }),
            Event::Admin { c, .. } => Some(PoolName::Admin(c)),
            Event::Recv { h, .. } => Some(PoolName::Recv(h)),
        }
    }

    /// The event that takes the item of a number from a pool.
    pub fn taking(name: PoolName, item: u64) -> Event
        ensures { result ≡ event_of name item }
    {
        match name {
            PoolName::Ctl(s) => Event::Ctl { s, item },
            PoolName::Pkt { s, p } => Event::Pkt { s, p, item },
            PoolName::Note(s) => Event::Note { s, item },
            PoolName::App { c, s } => Event::App { c, s, item },
            PoolName::Admin(c) => Event::Admin { c, item },
            PoolName::Recv(h) => Event::Recv { h, item },
        }
    }

    /// The number of the item that an internal event takes, and the position in the script of an input.
    pub fn number(&self) -> u64
        ensures { result ≡ number_of self.now }
    {
        match *self {
            Event::In(position) => u64::from(position),
            Event::Ctl { item, .. }
            | Event::Pkt { item, .. }
            | Event::Note { item, .. }
            | Event::App { item, .. }
            | Event::Admin { item, .. }
            | Event::Recv { item, .. } => item,
        }
    }

    /// How many inputs the event counts for.
    pub(crate) fn input_count(&self) -> u32
        ensures { result ≡ input_count self.now }
    {
        match self {
            Event::In(_) => 1,
            _ => 0,
        }
    }
}
