//! Where each pool stands in the order of all of them, by arithmetic.
ghost use Rattle.std.specs.Prelude.{◌≡◌, ◌+◌, ◌<◌, ◌≤◌, ◌^◌, ℕ, IfOk, length, slice_index_or, sum};
ghost use Rattle.pool_book.specs.Places.{Numbered, Reaches, admin_start, app_start, note_start, pool_count, port_start, recv_start};

use crate::actor::Actor;
use crate::name::PoolName;
use std::alloc::{AllocError, Global};
use std::marker::Model;

/// Numbers from `start` on and below `end`.
#[derive(Clone, Copy, Debug)]
pub(crate) struct Span {
    pub(crate) start: usize,
    pub(crate) end: usize,
}

/// The numbers of the pools from which one actor takes, in ascending order.
#[derive(Clone, Copy, Debug)]
pub(crate) struct Reach {
    pub(crate) first: Span,
    pub(crate) second: Span,
    pub(crate) third: Span,
}

/// The network that the pools belong to, with the number of the first port's pool of each switch.
#[derive(Debug, Drop)]
pub(crate) struct Layout {
    ports: Vec<u16>,
    // One for each switch, and one for what comes after all ports.
    starts: Vec<usize>,
    controllers: u16,
    hosts: u16,
}

impl Model for Layout {
    ghost use Rattle.pool_book.specs.Places.{Laid, Network};

    ghost Value = { Network };

    ghost view = { λ l. record { ports = l.ports.items; controllers = l.controllers; hosts = l.hosts } };

    ghost invariant = { λ l. Laid l.ports.items l.starts.items l.controllers l.hosts };
}

const NONE: Span = Span { start: 0, end: 0 };

const NOWHERE: Reach = Reach {
    first: NONE,
    second: NONE,
    third: NONE,
};

impl Layout {
    ghost use Rattle.pool_book.specs.declared.actor.Actor.TheVariants as actor;
    ghost use Rattle.pool_book.specs.declared.name.PoolName.TheVariants.{Ctl, Pkt, Note, App, Admin, Recv};

    pub(crate) fn new(
        alloc: Global,
        ports: &[u16],
        controllers: u16,
        hosts: u16,
    ) -> Result<Layout, AllocError>
        requires { pool_count ports.now controllers hosts ≤ 4096 }
        ensures ports { IfOk result (λ layout. layout.ports ≡ ports.now) }
        ensures controllers { IfOk result (λ layout. layout.controllers ≡ controllers) }
        ensures hosts { IfOk result (λ layout. layout.hosts ≡ hosts) }
    {
        let starts = port_starts(alloc, ports)?;
        Ok(Layout {
            ports: Vec::from_slice(alloc, ports)?,
            starts,
            controllers,
            hosts,
        })
    }

    pub(crate) fn copy(&self) -> Result<Layout, AllocError>
        ensures { IfOk result (λ layout. layout ≡ self.now) }
    {
        let alloc = self.alloc();
        Ok(Layout {
            ports: Vec::from_slice(alloc, self.ports.as_slice())?,
            starts: Vec::from_slice(alloc, self.starts.as_slice())?,
            controllers: self.controllers,
            hosts: self.hosts,
        })
    }

    pub(crate) fn alloc(&self) -> Global {
        *self.ports.allocator()
    }

    /// The number of the pool of a name, if there is one.
    pub(crate) fn number(&self, name: PoolName) -> Option<usize>
        ensures { Numbered self.now name result }
    {
        match name {
            PoolName::Ctl(s) => self.ctl(s),
            PoolName::Pkt { s, p } => self.pkt(s, p),
            PoolName::Note(s) => self.note(s),
            PoolName::App { c, s } => self.app(c, s),
            PoolName::Admin(c) => self.admin(c),
            PoolName::Recv(h) => self.recv(h),
        }
    }

    fn ctl(&self, s: u16) -> Option<usize>
        ensures { Numbered self.now (Ctl s) result }
    {
        if usize::from(s) >= self.ports.len() {
            return None;
        }
        Some(usize::from(s))
    }

    fn pkt(&self, s: u16, p: u16) -> Option<usize>
        ensures { Numbered self.now (Pkt s p) result }
    {
        let count = *self.ports.get(usize::from(s))?;
        if p == 0 || p > count {
            return None;
        }
        Some(self.starts[usize::from(s)] + usize::from(p - 1))
    }

    fn note(&self, s: u16) -> Option<usize>
        ensures { Numbered self.now (Note s) result }
    {
        if usize::from(s) >= self.ports.len() {
            return None;
        }
        Some(self.note_start() + usize::from(s))
    }

    fn app(&self, c: u16, s: u16) -> Option<usize>
        ensures { Numbered self.now (App c s) result }
    {
        if c >= self.controllers || usize::from(s) >= self.ports.len() {
            return None;
        }
        Some(self.app_start() + (usize::from(c) * self.ports.len() + usize::from(s)))
    }

    fn admin(&self, c: u16) -> Option<usize>
        ensures { Numbered self.now (Admin c) result }
    {
        if c >= self.controllers {
            return None;
        }
        Some(self.admin_start() + usize::from(c))
    }

    fn recv(&self, h: u16) -> Option<usize>
        ensures { Numbered self.now (Recv h) result }
    {
        if h >= self.hosts {
            return None;
        }
        Some(self.recv_start() + usize::from(h))
    }

    /// The numbers of the pools from which an actor takes.
    pub(crate) fn reach(&self, who: Actor) -> Reach
        ensures { Reaches self.now who result.first.start result.first.end result.second.start result.second.end result.third.start result.third.end }
    {
        match who {
            Actor::Script => NOWHERE,
            Actor::Switch(s) => self.switch_reach(s),
            Actor::Controller(c) => self.controller_reach(c),
            Actor::Host(h) => self.host_reach(h),
        }
    }

    fn switch_reach(&self, s: u16) -> Reach
        ensures { Reaches self.now (actor.Switch s) result.first.start result.first.end result.second.start result.second.end result.third.start result.third.end }
    {
        let at = usize::from(s);
        if at >= self.ports.len() {
            return NOWHERE;
        }
        let start = self.starts[at];
        Reach {
            first: numbers(at, 1),
            second: numbers(start, usize::from(self.ports[at])),
            third: numbers(self.note_start() + at, 1),
        }
    }

    fn controller_reach(&self, c: u16) -> Reach
        ensures { Reaches self.now (actor.Controller c) result.first.start result.first.end result.second.start result.second.end result.third.start result.third.end }
    {
        if c >= self.controllers {
            return NOWHERE;
        }
        let switches = self.ports.len();
        Reach {
            first: NONE,
            second: numbers(self.app_start() + usize::from(c) * switches, switches),
            third: numbers(self.admin_start() + usize::from(c), 1),
        }
    }

    fn host_reach(&self, h: u16) -> Reach
        ensures { Reaches self.now (actor.Host h) result.first.start result.first.end result.second.start result.second.end result.third.start result.third.end }
    {
        if h >= self.hosts {
            return NOWHERE;
        }
        Reach {
            first: NONE,
            second: NONE,
            third: numbers(self.recv_start() + usize::from(h), 1),
        }
    }

    fn note_start(&self) -> usize
        ensures { result ≡ note_start self.now.ports }
    {
        self.starts[self.ports.len()]
    }

    fn app_start(&self) -> usize
        ensures { result ≡ app_start self.now.ports }
    {
        self.note_start() + self.ports.len()
    }

    fn admin_start(&self) -> usize
        ensures { result ≡ admin_start self.now.ports self.now.controllers }
    {
        self.app_start() + usize::from(self.controllers) * self.ports.len()
    }

    fn recv_start(&self) -> usize
        ensures { result ≡ recv_start self.now.ports self.now.controllers }
    {
        self.admin_start() + usize::from(self.controllers)
    }
}

// So many numbers from `start` on.
fn numbers(start: usize, count: usize) -> Span
    requires { start + count < 2 ^ 64 }
    ensures start { result.start ≡ start }
    ensures end { result.end ≡ start + count }
{
    Span {
        start,
        end: start + count,
    }
}

// The number of the pool at the first port of each switch, and of what comes after all ports.
fn port_starts(alloc: Global, ports: &[u16]) -> Result<Vec<usize>, AllocError>
    requires { length ports.now + sum ports.now ≤ 4096 }
    ensures count { IfOk result (λ starts. length starts.items ≡ length ports.now + 1) }
    ensures each { IfOk result (λ starts. (s : ℕ) → s ≤ length ports.now → slice_index_or starts.items s 0 ≡ port_start ports.now s) }
{
    let mut starts = Vec::new(alloc);
    let mut next = ports.len();
    starts.push(next)?;
    for count in ports {
        next += usize::from(*count);
        starts.push(next)?;
    }
    Ok(starts)
}
