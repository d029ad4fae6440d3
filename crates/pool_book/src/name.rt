//! The names of pools.
ghost use Rattle.std.specs.Prelude.{◌≡◌};

use crate::actor::Actor;

/// The name of a pool.
#[derive(Clone, Copy, Debug, PartialEq, Eq)]
pub enum PoolName {
    /// Messages to a switch.
    Ctl(u16),
    /// Packets at port `p` of switch `s`.
    Pkt { s: u16, p: u16 },
    /// Notices to a switch.
    Note(u16),
    /// Messages from switch `s` to controller `c`, and the news that it is gone.
    App { c: u16, s: u16 },
    /// Policies for a controller.
    Admin(u16),
    /// Packets to a host.
    Recv(u16),
}

impl PoolName {
    ghost use Rattle.pool_book.specs.Names.{taker};

    /// Who takes from the pool.
    pub fn taker(&self) -> Actor
        ensures { result ≡ taker self.now }
    {
        match *self {
            PoolName::Ctl(s) | PoolName::Pkt { s, .. } | PoolName::Note(s) => Actor::Switch(s),
            PoolName::App { c, .. } | PoolName::Admin(c) => Actor::Controller(c),
            PoolName::Recv(h) => Actor::Host(h),
        }
    }
}
