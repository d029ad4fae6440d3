//! The part of a world that all actors share.
ghost use Rattle.std.specs.Prelude.{◌≡◌, ◌<◌, ◌≤◌, ◌+◌, ◌^◌, length, map, All, IfOk, OnErr, OnOk, replicate};
ghost use Rattle.pool_book.specs.Names.{names};
ghost use Rattle.pool_book.specs.Pools.{queues};
ghost use Rattle.event_world.specs.Mail.{mail_down};
ghost use Rattle.event_world.specs.Room.{CanNumber, HasRoomForMail};
ghost use Rattle.event_world.specs.Shell.{shared_of};
ghost use Rattle.event_world.specs.World.{affected, delivered, first_joins, start_shared, taken};

use crate::delivery::{deliver, deliver_down, flush_all, make_room, make_room_down};
use crate::effect::Effect;
use crate::mail::Mail;
use controller_api::SentMessages;
use listed::{Listed, Plain};
use message_pools::Item;
use of10_messages::{Message, Notice};
use pool_book::{PoolName, Pools};
use std::alloc::{AllocError, Global};
use topology::{Status, Topology};

/// What is up, what waits, how many packets each host has received, and how many events and inputs happened.
#[derive(Debug, Drop)]
pub(crate) struct Shell {
    pub(crate) status: Status,
    pub(crate) pools: Pools,
    pub(crate) received: Listed<u64>,
    pub(crate) events: u32,
    pub(crate) inputs: u32,
}

impl Shell {
    /// The shared part with which a network starts that has so many controllers: each switch that has a controller is to join
    /// it.
    pub(crate) fn start(
        alloc: Global,
        topology: &Topology,
        controllers: u16,
    ) -> Result<Shell, AllocError>
        requires few { length (names topology.now.ports controllers (length topology.now.hosts)) ≤ 4096 }
        requires hosts { length topology.now.hosts < 2 ^ 16 }
        requires switches { length topology.now.owner < 2 ^ 16 }
        ensures { IfOk result (λ shell. shared_of shell ≡ start_shared topology.now controllers) }
    {
        let hosts = topology.hosts.len();
        let mut pools = Pools::start(alloc, topology.ports.as_slice(), controllers, hosts as u16)?;
        let joins = first_joins(alloc, topology.owner.as_slice())?;
        make_room(&mut pools, joins.as_slice())?;
        deliver(&mut pools, joins);
        Ok(Shell {
            status: Status::start(alloc, topology)?,
            pools,
            received: Listed::of(vec![in alloc; 0u64; hosts]?),
            events: 0,
            inputs: 0,
        })
    }

    /// Takes the first item of a pool, and then puts mail into its pools. After want of memory nothing has changed.
    pub(crate) fn exchange(&mut self, name: PoolName, mail: Mail) -> Result<(), AllocError>
        requires { CanNumber (length mail) (queues self.old.pools) }
        ensures ok { OnOk result (shared_of self.new ≡ delivered mail (taken name (shared_of self.old))) }
        ensures err { OnErr result (shared_of self.new ≡ shared_of self.old) }
    {
        make_room(&mut self.pools, mail.as_slice())?;
        self.pools.take(name);
        deliver(&mut self.pools, mail);
        Ok(())
    }

    /// Makes room for what a controller sends. Nothing else changes whatever the answer.
    pub(crate) fn make_room_down(
        &mut self,
        topology: &Topology,
        c: u16,
        sent: &[(u16, Message)],
    ) -> Result<(), AllocError>
        ensures room { OnOk result (HasRoomForMail (mail_down topology.now self.new.status c sent.now) self.new.pools) }
        ensures shared { shared_of self.new ≡ shared_of self.old }
    {
        make_room_down(&mut self.pools, topology, &self.status, c, sent)
    }

    /// Takes the first item of a pool, and then puts what a controller sends into its pools, where there is room for it.
    pub(crate) fn exchange_down(
        &mut self,
        name: PoolName,
        topology: &Topology,
        c: u16,
        sent: SentMessages,
    )
        requires room { HasRoomForMail (mail_down topology.now self.old.status c sent) self.old.pools }
        requires numbers { CanNumber (length (mail_down topology.now self.old.status c sent)) (queues self.old.pools) }
        ensures { shared_of self.new ≡ delivered (mail_down topology.now self.old.status c sent) (taken name (shared_of self.old)) }
    {
        self.pools.take(name);
        deliver_down(&mut self.pools, topology, &self.status, c, sent);
    }

    /// An input does what it does. After want of memory nothing has changed.
    pub(crate) fn apply(&mut self, change: Effect) -> Result<(), AllocError>
        requires { CanNumber (length change.mail) (queues self.old.pools) }
        ensures ok { OnOk result (shared_of self.new ≡ affected change (shared_of self.old)) }
        ensures err { OnErr result (shared_of self.new ≡ shared_of self.old) }
    {
        let Effect {
            status,
            flushes,
            mail,
        } = change;
        make_room(&mut self.pools, mail.as_slice())?;
        flush_all(&mut self.pools, flushes.as_slice());
        self.status = status;
        deliver(&mut self.pools, mail);
        Ok(())
    }

    /// The same shared part again.
    pub(crate) fn copy(&self) -> Result<Shell, AllocError>
        ensures { IfOk result (λ shell. shared_of shell ≡ shared_of self.now) }
    {
        Ok(Shell {
            status: self.status.copy()?,
            pools: self.pools.copy()?,
            received: self.received.copy()?,
            events: self.events,
            inputs: self.inputs,
        })
    }
}

// Each switch that has a controller is to join it.
fn first_joins(alloc: Global, owners: &[Option<u16>]) -> Result<Mail, AllocError>
    requires { length owners.now < 2 ^ 16 }
    ensures { IfOk result (λ mail. mail ≡ first_joins owners.now) }
{
    let mut mail = Listed::new(alloc);
    for (s, owner) in owners.iter().enumerate() {
        if owner.is_some() {
            mail.push((
                PoolName::Note(s as u16),
                Item::Notice(Notice::Join { down: 0 }),
            ))?;
        }
    }
    Ok(mail)
}
