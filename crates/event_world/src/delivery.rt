//! Mail and what is thrown away, in the pools.
ghost use Rattle.std.specs.Prelude.{◌≡◌, ◌≤◌, length, filter_map, IfSome, IsSome, OnOk};
ghost use Rattle.message_pools.specs.declared.item.Item.TheVariants as item;
ghost use Rattle.pool_book.specs.Pools.{pool_of, queues, room_of};
ghost use Rattle.event_world.specs.Mail.{addressed, mail_down, with_mail};
ghost use Rattle.event_world.specs.Room.{CanNumber, HasRoomForMail, KeepsRoom};
ghost use Rattle.event_world.specs.World.{without_all};

use crate::mail::{Mail, down_to};
use controller_api::SentMessages;
use message_pools::Item;
use of10_messages::Message;
use pool_book::{PoolName, Pools};
use std::alloc::AllocError;
use switch_core::Ups;
use topology::{Status, Topology};

/// Makes room for mail. The queues stay as they are whatever the answer.
pub(crate) fn make_room(pools: &mut Pools, mail: &[(PoolName, Item)]) -> Result<(), AllocError>
    ensures room { OnOk result (HasRoomForMail mail.now pools.new) }
    ensures queues { queues pools.new ≡ queues pools.old }
{
    for one in mail {
        pools.make_room(one.0)?;
    }
    Ok(())
}

/// Puts mail into its pools, where there is room for it.
pub(crate) fn deliver(pools: &mut Pools, mail: Mail)
    requires room { HasRoomForMail mail pools.old }
    requires numbers { CanNumber (length mail) (queues pools.old) }
    ensures { queues pools.new ≡ with_mail mail (queues pools.old) }
{
    for (name, item) in mail.into_vec() {
        pools.put(name, item);
    }
}

/// Puts messages into the pool to which they come, if they come to any and it has room for them.
pub(crate) fn deliver_up(pools: &mut Pools, name: Option<PoolName>, up: Ups)
    requires room { IfSome name (λ name. IsSome (pool_of name pools.old) → length up ≤ room_of name pools.old) }
    requires numbers { CanNumber (length up) (queues pools.old) }
    ensures { queues pools.new ≡ with_mail (filter_map (λ message. addressed name (item.Message message)) up) (queues pools.old) }
{
    if let Some(name) = name {
        for message in up.into_vec() {
            pools.put(name, Item::Message(message));
        }
    }
}

/// Makes room for what a controller sends. The queues stay as they are whatever the answer.
pub(crate) fn make_room_down(
    pools: &mut Pools,
    topology: &Topology,
    status: &Status,
    c: u16,
    sent: &[(u16, Message)],
) -> Result<(), AllocError>
    ensures room { OnOk result (HasRoomForMail (mail_down topology.now status.now c sent.now) pools.new) }
    ensures queues { queues pools.new ≡ queues pools.old }
{
    for one in sent {
        if let Some(name) = down_to(topology, status, c, one.0) {
            pools.make_room(name)?;
        }
    }
    Ok(())
}

/// Puts what a controller sends into its pools, where there is room for it.
pub(crate) fn deliver_down(
    pools: &mut Pools,
    topology: &Topology,
    status: &Status,
    c: u16,
    sent: SentMessages,
)
    requires room { HasRoomForMail (mail_down topology.now status.now c sent) pools.old }
    requires numbers { CanNumber (length (mail_down topology.now status.now c sent)) (queues pools.old) }
    ensures { queues pools.new ≡ with_mail (mail_down topology.now status.now c sent) (queues pools.old) }
{
    for (s, message) in sent.into_vec() {
        if let Some(name) = down_to(topology, status, c, s) {
            pools.put(name, Item::Message(message));
        }
    }
}

/// Throws away all that waits in these pools.
pub(crate) fn flush_all(pools: &mut Pools, names: &[PoolName])
    ensures queues { queues pools.new ≡ without_all names.now (queues pools.old) }
    ensures room { KeepsRoom pools.old pools.new }
{
    for name in names {
        pools.flush(*name);
    }
}
