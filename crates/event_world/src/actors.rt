//! The steps of the actors. Each takes the memory that it needs before it changes anything.
ghost use Rattle.std.specs.Prelude.{◌≡◌, ◌+◌, ◌<◌, ◌^◌, length, slice_get, slice_index, option_and_then, option_map, IfOk, IsSome, OnErr, OnOk, Some};
ghost use Rattle.listed.specs.Lists.{changed_at};
ghost use Rattle.of10_match.specs.declared.packet.Packet.{Packet as PacketValue};
ghost use Rattle.of10_messages.specs.Valid.{IsValidMessage};
ghost use Rattle.of10_messages.specs.declared.message.Message.{Message as MessageValue};
ghost use Rattle.message_pools.specs.declared.item.Item.{Item as ItemValue};
ghost use Rattle.message_pools.specs.declared.item.Item.TheVariants as item;
ghost use Rattle.machine_setup.specs.Setup.{IsInput, IsValidSetup};
ghost use Rattle.message_pools.specs.Queue.{head_of};
ghost use Rattle.pool_book.specs.Names.{taker};
ghost use Rattle.pool_book.specs.Pools.{pool_of, queues};
ghost use Rattle.switch_core.specs.Leaving.{IsValidOuts};
ghost use Rattle.pool_book.specs.declared.actor.Actor.TheVariants.{Controller as AtController};
ghost use Rattle.pool_book.specs.declared.name.PoolName.TheVariants.{Ctl, Note, Pkt, Recv};
ghost use Rattle.event_world.specs.Fits.{Fits, switch_of};
ghost use Rattle.event_world.specs.Plans.{CanTake, IsCommand, IsPlanFor, IsPlanned, commanded};
ghost use Rattle.event_world.specs.Room.{HasRoomUp};
ghost use Rattle.event_world.specs.World.{IsFirst, counted_world, first_item, news_at, with_input, with_item};

use crate::delivery::deliver_up;
use crate::effect::{effect_of, fails};
use crate::mail::{mail_of_switch, up_from};
use crate::world::World;
use controller_api::{Controller, Outbox, UpItem};
use listed::{Listed, Plain};
use machine_setup::{Input, Setup};
use message_pools::Item;
use of10_match::Packet;
use pool_book::{PoolName, Pools};
use std::alloc::AllocError;
use switch_core::laws::{a_step_keeps_the_switch, a_step_tells_few};
use switch_core::{Outs, Planned, Switch};

impl<C: Controller> World<C> {
    /// The actor of a pool takes its step with the pool's first item.
    pub(crate) fn act(&mut self, setup: &Setup<C>, name: PoolName) -> Result<(), AllocError>
        requires setup { IsValidSetup setup.now }
        requires fits { Fits C.policies setup.now self.old }
        requires events { self.old.shared.events < 2 ^ 31 }
        requires head { IsSome (first_item name self.old.shared) }
        ensures ok { OnOk result (self.new ≡ with_item C.react setup.now.topology name (first_item name self.old.shared) self.old) }
        ensures fits { OnOk result (Fits C.policies setup.now (counted_world 0 self.new)) }
        ensures err { OnErr result (self.new ≡ self.old) }
    {
        match name {
            PoolName::Ctl(s) => self.take_message(setup, s),
            PoolName::Pkt { s, p } => self.take_packet(setup, s, p),
            PoolName::Note(s) => self.take_notice(setup, s),
            PoolName::App { c, .. } | PoolName::Admin(c) => self.hear(setup, name, c),
            PoolName::Recv(h) => {
                self.receive(setup, h);
                Ok(())
            }
        }
    }

    // A host receives the first packet that waits for it.
    fn receive(&mut self, setup: &Setup<C>, h: u16)
        requires setup { IsValidSetup setup.now }
        requires fits { Fits C.policies setup.now self.old }
        requires events { self.old.shared.events < 2 ^ 31 }
        requires head { IsSome (first_item (Recv h) self.old.shared) }
        ensures done { self.new ≡ with_item C.react setup.now.topology (Recv h) (first_item (Recv h) self.old.shared) self.old }
        ensures fits { Fits C.policies setup.now (counted_world 0 self.new) }
    {
        count_one(&mut self.shell.received, h);
        self.shell.pools.take(PoolName::Recv(h));
    }

    // A switch takes the first packet at a port.
    fn take_packet(&mut self, setup: &Setup<C>, s: u16, p: u16) -> Result<(), AllocError>
        requires setup { IsValidSetup setup.now }
        requires fits { Fits C.policies setup.now self.old }
        requires events { self.old.shared.events < 2 ^ 31 }
        requires head { IsSome (first_item (Pkt s p) self.old.shared) }
        ensures ok { OnOk result (self.new ≡ with_item C.react setup.now.topology (Pkt s p) (first_item (Pkt s p) self.old.shared) self.old) }
        ensures fits { OnOk result (Fits C.policies setup.now (counted_world 0 self.new)) }
        ensures err { OnErr result (self.new ≡ self.old) }
    {
        let name = PoolName::Pkt { s, p };
        let packet = self.first_packet(name);
        let planned = self.switches[usize::from(s)].plan_packet(p, &packet)?;
        self.carry_out(setup, name, s, planned)
    }

    // The first item of a pool, where it is a packet.
    fn first_packet(&self, name: PoolName) -> Packet
        requires { (packet : PacketValue) × IsFirst name (item.Packet packet) self.now.shared }
        ensures { IsFirst name (item.Packet result) self.now.shared }
    {
        match head_in(&self.shell.pools, name) {
            Some((_, Item::Packet(packet))) => *packet,
            _ => unreachable!(),
        }
    }

    // A switch takes the first message from its controller.
    fn take_message(&mut self, setup: &Setup<C>, s: u16) -> Result<(), AllocError>
        requires setup { IsValidSetup setup.now }
        requires fits { Fits C.policies setup.now self.old }
        requires events { self.old.shared.events < 2 ^ 31 }
        requires head { IsSome (first_item (Ctl s) self.old.shared) }
        ensures ok { OnOk result (self.new ≡ with_item C.react setup.now.topology (Ctl s) (first_item (Ctl s) self.old.shared) self.old) }
        ensures fits { OnOk result (Fits C.policies setup.now (counted_world 0 self.new)) }
        ensures err { OnErr result (self.new ≡ self.old) }
    {
        let name = PoolName::Ctl(s);
        match self.plan_message(s)? {
            Some(planned) => self.carry_out(setup, name, s, planned),
            None => self.obey(setup, name, s),
        }
    }

    // What a switch is to do at the first message from its controller, if it is a PACKET_OUT.
    fn plan_message(&self, s: u16) -> Result<Option<Planned>, AllocError>
        requires switch { s < length self.now.switches }
        requires head { (message : MessageValue) × IsFirst (Ctl s) (item.Message message) self.now.shared × IsValidMessage message }
        ensures plan { (message : MessageValue) × IsFirst (Ctl s) (item.Message message) self.now.shared
            × IfOk result (λ found. IsPlanned s (slice_get self.now.switches s) message found) }
    {
        match head_in(&self.shell.pools, PoolName::Ctl(s)) {
            Some((_, Item::Message(message))) => {
                self.switches[usize::from(s)].plan_message(message)
            }
            _ => unreachable!(),
        }
    }

    // A switch does what it planned to do with the first item of a pool.
    fn carry_out(
        &mut self,
        setup: &Setup<C>,
        name: PoolName,
        s: u16,
        planned: Planned,
    ) -> Result<(), AllocError>
        requires setup { IsValidSetup setup.now }
        requires fits { Fits C.policies setup.now self.old }
        requires events { self.old.shared.events < 2 ^ 31 }
        requires name { switch_of name ≡ Some s }
        requires plan { (it : ItemValue) × IsFirst name it self.old.shared × IsPlanFor (slice_get self.old.switches s) name it planned }
        ensures ok { OnOk result (self.new ≡ with_item C.react setup.now.topology name (first_item name self.old.shared) self.old) }
        ensures fits { OnOk result (Fits C.policies setup.now (counted_world 0 self.new)) }
        ensures err { OnErr result (self.new ≡ self.old) }
    {
        a_step_keeps_the_switch();
        let Planned { outs, counts } = planned;
        let mail = mail_of_switch(self.alloc, &setup.topology, &self.shell.status, s, outs)?;
        self.shell.exchange(name, mail)?;
        self.switches.item_mut(usize::from(s)).carry_out(counts);
        Ok(())
    }

    // A switch takes the first notice.
    fn take_notice(&mut self, setup: &Setup<C>, s: u16) -> Result<(), AllocError>
        requires setup { IsValidSetup setup.now }
        requires fits { Fits C.policies setup.now self.old }
        requires events { self.old.shared.events < 2 ^ 31 }
        requires head { IsSome (first_item (Note s) self.old.shared) }
        ensures ok { OnOk result (self.new ≡ with_item C.react setup.now.topology (Note s) (first_item (Note s) self.old.shared) self.old) }
        ensures fits { OnOk result (Fits C.policies setup.now (counted_world 0 self.new)) }
        ensures err { OnErr result (self.new ≡ self.old) }
    {
        self.obey(setup, PoolName::Note(s), s)
    }

    // A switch takes a message that is no PACKET_OUT, or a notice. It sends nothing but messages to its controller, for which
    // there is room before it takes its step.
    fn obey(&mut self, setup: &Setup<C>, name: PoolName, s: u16) -> Result<(), AllocError>
        requires setup { IsValidSetup setup.now }
        requires fits { Fits C.policies setup.now self.old }
        requires events { self.old.shared.events < 2 ^ 31 }
        requires name { switch_of name ≡ Some s }
        requires item { (it : ItemValue) × IsFirst name it self.old.shared × IsCommand name it }
        ensures ok { OnOk result (self.new ≡ with_item C.react setup.now.topology name (first_item name self.old.shared) self.old) }
        ensures fits { OnOk result (Fits C.policies setup.now (counted_world 0 self.new)) }
        ensures err { OnErr result (self.new ≡ self.old) }
    {
        a_step_keeps_the_switch();
        a_step_tells_few();
        let at = usize::from(s);
        let up = up_from(&setup.topology, &self.shell.status, s);
        let most = self.switches[at].table().entries().len().max(1);
        make_room_up(&mut self.shell.pools, up, most)?;
        let outs = match head_in(&self.shell.pools, name) {
            Some((_, item)) => command(self.switches.item_mut(at), item)?,
            None => unreachable!(),
        };
        self.shell.pools.take(name);
        deliver_up(&mut self.shell.pools, up, outs.up);
        Ok(())
    }

    // A controller hears the first item of one of its pools. There is room for what it sends at the item before it changes.
    fn hear(&mut self, setup: &Setup<C>, name: PoolName, c: u16) -> Result<(), AllocError>
        requires setup { IsValidSetup setup.now }
        requires fits { Fits C.policies setup.now self.old }
        requires events { self.old.shared.events < 2 ^ 31 }
        requires name { taker name ≡ AtController c }
        requires head { IsSome (first_item name self.old.shared) }
        ensures ok { OnOk result (self.new ≡ with_item C.react setup.now.topology name (first_item name self.old.shared) self.old) }
        ensures fits { OnOk result (Fits C.policies setup.now (counted_world 0 self.new)) }
        ensures err { OnErr result (self.new ≡ self.old) }
    {
        let item = self.heard(name)?;
        let at = usize::from(c);
        let mut out = Outbox::new(self.alloc);
        self.controllers[at].send(&item, &mut out)?;
        self.shell.make_room_down(&setup.topology, c, out.list())?;
        self.controllers.item_mut(at).hear(&item, out.list())?;
        self.shell
            .exchange_down(name, &setup.topology, c, out.into_list());
        Ok(())
    }

    // What a controller hears at the first item of a pool.
    fn heard(&self, name: PoolName) -> Result<UpItem, AllocError>
        requires { IsSome (news_at name self.now.shared) }
        ensures { IfOk result (λ heard. news_at name self.now.shared ≡ Some heard) }
    {
        match (name, head_in(&self.shell.pools, name)) {
            (PoolName::App { s, .. }, Some((_, Item::Message(message)))) => {
                Ok(UpItem::FromSwitch(s, message.copy()?))
            }
            (PoolName::App { s, .. }, Some((_, Item::Gone))) => Ok(UpItem::Gone(s)),
            (PoolName::Admin(_), Some((_, Item::Policy(deny)))) => Ok(UpItem::Policy(*deny)),
            _ => unreachable!(),
        }
    }

    /// An input is given.
    pub(crate) fn give(&mut self, setup: &Setup<C>, input: &Input) -> Result<(), AllocError>
        requires setup { IsValidSetup setup.now }
        requires input { IsInput setup.now.topology (length setup.now.controllers) input.now }
        requires fits { Fits C.policies setup.now self.old }
        requires events { self.old.shared.events < 2 ^ 31 }
        requires inputs { self.old.shared.inputs < 4294 }
        ensures ok { OnOk result (self.new ≡ with_input C.react setup.now.topology input.now self.old) }
        ensures fits { OnOk result (Fits C.policies setup.now (counted_world 1 self.new)) }
        ensures err { OnErr result (self.new ≡ self.old) }
    {
        self.take_input(setup, input)?;
        Ok(())
    }

    // An input changes the shared part, and a switch that fails starts anew.
    fn take_input(&mut self, setup: &Setup<C>, input: &Input) -> Result<(), AllocError>
        requires setup { IsValidSetup setup.now }
        requires input { IsInput setup.now.topology (length setup.now.controllers) input.now }
        requires fits { Fits C.policies setup.now self.old }
        requires events { self.old.shared.events < 2 ^ 31 }
        ensures ok { OnOk result (self.new ≡ with_input C.react setup.now.topology input.now self.old) }
        ensures err { OnErr result (self.new ≡ self.old) }
    {
        let change = effect_of(self.alloc, &setup.topology, &self.shell.status, input)?;
        let failed = fails(&self.shell.status, input);
        self.shell.apply(change)?;
        if let Some(s) = failed {
            let ports = setup.topology.ports[usize::from(s)];
            self.switches
                .replace(usize::from(s), Switch::fresh(self.alloc, s, ports));
        }
        Ok(())
    }
}

// A host has received one packet more.
fn count_one(received: &mut Listed<u64>, h: u16)
    requires host { h < length received.old }
    requires room { slice_index received.old h + 1 < 2 ^ 64 }
    ensures { received.new ≡ changed_at h (λ count. count + 1) received.old }
{
    let at = usize::from(h);
    received.replace(at, received[at] + 1);
}

// The first item of a pool, with its number.
fn head_in(pools: &Pools, name: PoolName) -> Option<(u64, &Item)>
    ensures { option_map (λ head. (head.0, head.1.now)) result ≡ option_and_then head_of (pool_of name (queues pools.now)) }
{
    pools.pool(name)?.head()
}

// Makes room for messages in the pool to which they come, if they come to any.
fn make_room_up(pools: &mut Pools, up: Option<PoolName>, most: usize) -> Result<(), AllocError>
    ensures room { OnOk result (HasRoomUp up most pools.new) }
    ensures queues { queues pools.new ≡ queues pools.old }
{
    if let Some(app) = up {
        pools.make_room_for(app, most)?;
    }
    Ok(())
}

// A switch takes a message or a notice.
fn command(switch: &mut Switch, item: &Item) -> Result<Outs, AllocError>
    requires { CanTake switch.old item.now }
    ensures ok { IfOk result (λ outs. commanded switch.old item.now ≡ record { state = switch.new; up = outs.up; out = outs.out }) }
    ensures valid { IfOk result (λ outs. IsValidOuts outs) }
    ensures few { IfOk result (λ outs. length outs.up + length outs.out < 2 ^ 32) }
    ensures err { OnErr result (switch.new ≡ switch.old) }
{
    match item {
        Item::Message(message) => switch.handle(message),
        Item::Notice(notice) => switch.notice(notice),
        _ => unreachable!(),
    }
}
