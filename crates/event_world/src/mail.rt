//! What an actor sends, on its way to pools.
ghost use Rattle.std.specs.Prelude.{◌≡◌, ◌<◌, ◌≤◌, ◌^◌, ◌++◌, length, filter_map, IfOk, IfSome, IsSome, OnOk};
ghost use Rattle.std.specs.Option.{option_to_list};
ghost use Rattle.message_pools.specs.declared.item.Item.TheVariants.{Message};
ghost use Rattle.event_world.specs.Mail.{addressed, down_to, mail_out, mail_up, out_of, owner_of, up_from};

use listed::Listed;
use message_pools::Item;
use pool_book::PoolName;
use std::alloc::{AllocError, Global};
use switch_core::{Outs, Ups};
use topology::{Landing, Status, Topology, emit};

/// Items on their way to pools, in order.
pub(crate) type Mail = Listed<(PoolName, Item)>;

// ---- where outputs go

/// The controller of a switch, if it has one.
pub(crate) fn owner_of(topology: &Topology, s: u16) -> Option<u16>
    ensures { result ≡ owner_of topology.now s }
{
    *topology.owner.get(usize::from(s))?
}

/// The pool to which a message from a switch comes.
pub(crate) fn up_from(topology: &Topology, status: &Status, s: u16) -> Option<PoolName>
    ensures { result ≡ up_from topology.now status.now s }
{
    if !status.is_control_up(s) {
        return None;
    }
    let c = owner_of(topology, s)?;
    Some(PoolName::App { c, s })
}

/// The pool to which a message from a controller to a switch comes.
pub(crate) fn down_to(topology: &Topology, status: &Status, c: u16, s: u16) -> Option<PoolName>
    ensures { result ≡ down_to topology.now status.now c s }
{
    let is_own = owner_of(topology, s) == Some(c);
    if is_own && status.is_control_up(s) && status.is_switch_up(s) {
        Some(PoolName::Ctl(s))
    } else {
        None
    }
}

/// The pool to which a packet comes that leaves a switch by a port.
fn out_of(topology: &Topology, status: &Status, s: u16, p: u16) -> Option<PoolName>
    requires links { length topology.now.links < 2 ^ 16 }
    requires hosts { length status.now.place < 2 ^ 16 }
    ensures { result ≡ out_of topology.now status.now s p }
{
    match emit(topology, status, s, p) {
        Landing::Wire { s, p } => Some(PoolName::Pkt { s, p }),
        Landing::Host(h) => Some(PoolName::Recv(h)),
        Landing::Lost(_) => None,
    }
}

// ---- mail

// Adds an item for a pool, if there is one.
fn address(mail: &mut Mail, name: Option<PoolName>, item: Item) -> Result<(), AllocError>
    ensures { OnOk result (mail.new ≡ mail.old ++ option_to_list (addressed name item)) }
{
    if let Some(name) = name {
        mail.push((name, item))?;
    }
    Ok(())
}

/// The mail of what a switch sends.
pub(crate) fn mail_of_switch(
    alloc: Global,
    topology: &Topology,
    status: &Status,
    s: u16,
    outs: Outs,
) -> Result<Mail, AllocError>
    requires links { length topology.now.links < 2 ^ 16 }
    requires hosts { length status.now.place < 2 ^ 16 }
    ensures { IfOk result (λ mail. mail ≡ mail_up topology.now status.now s outs.up ++ mail_out topology.now status.now s outs.out) }
{
    let Outs { up, out } = outs;
    let mut mail = mail_up(alloc, up_from(topology, status, s), up)?;
    for (port, packet) in out.into_vec() {
        let name = out_of(topology, status, s, port);
        address(&mut mail, name, Item::Packet(packet))?;
    }
    Ok(mail)
}

// The mail of messages that come to a pool, if they come to any.
fn mail_up(alloc: Global, name: Option<PoolName>, up: Ups) -> Result<Mail, AllocError>
    ensures { IfOk result (λ mail. mail ≡ filter_map (λ message. addressed name (Message message)) up) }
{
    let mut mail = Listed::new(alloc);
    for message in up.into_vec() {
        address(&mut mail, name, Item::Message(message))?;
    }
    Ok(mail)
}
