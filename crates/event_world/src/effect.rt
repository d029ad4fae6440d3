//! What each input does to the part of the world that all actors share.
ghost use Rattle.std.specs.Prelude.{◌≡◌, ◌<◌, ◌≤◌, ◌^◌, ◌-◌, ◌∷◌, [], ◌++◌, ℕ, length, map, filter, slice_get, slice_index, not, if◌then◌else◌, option_and_then, IfOk, OnOk, Some, None, true, false};
ghost use Rattle.std.specs.List.{list_any};
ghost use Rattle.std.specs.Option.{option_map_or, option_to_list};
ghost use Rattle.message_pools.specs.declared.item.Item.TheVariants.{Policy};
ghost use Rattle.of10_messages.specs.declared.notice.Notice.TheVariants.{Port};
ghost use Rattle.pool_book.specs.declared.name.PoolName.TheVariants.{Admin, Pkt};
ghost use Rattle.topology.specs.Network.{far_end};
ghost use Rattle.topology.specs.Status.{IsStatus, is_up};
ghost use Rattle.machine_setup.specs.Setup.{IsInput};
ghost use Rattle.event_world.specs.Inputs.{app_of, channel_down, channel_up, down_mask, effect, fails, has_owner, host_moves, injected, is_open, joins, link_down, link_up, no_effect, pools_of, ports_of, seconds_pass, sends_only, switch_comes, switch_fails, tells, tells_gone, tells_neighbours};

use crate::mail::{Mail, owner_of};
use listed::Listed;
use machine_setup::Input;
use message_pools::Item;
use of10_match::{Match, Packet};
use of10_messages::Notice;
use pool_book::PoolName;
use std::alloc::{AllocError, Global};
use topology::{Status, Topology};

/// What an input does: the status that it leads to, the pools in which all that waits is thrown away, and what is then put
/// into pools, in order.
#[derive(Debug, Drop)]
pub(crate) struct Effect {
    pub(crate) status: Status,
    pub(crate) flushes: Listed<PoolName>,
    pub(crate) mail: Mail,
}

impl Effect {
    // The status changes, and nothing else yet.
    fn to(alloc: Global, status: Status) -> Effect
        ensures { result ≡ no_effect status }
    {
        Effect {
            status,
            flushes: Listed::new(alloc),
            mail: Listed::new(alloc),
        }
    }

    // A switch is told something.
    fn tell(&mut self, s: u16, notice: Notice) -> Result<(), AllocError>
        ensures { OnOk result (self.new ≡ record self.old { mail = self.old.mail ++ tells s notice ∷ [] }) }
    {
        self.mail.push((PoolName::Note(s), Item::Notice(notice)))
    }

    // The neighbours of a switch are told that the links to it are down or up, by the status that the input leads to.
    fn tell_neighbours(&mut self, topology: &Topology, s: u16, down: bool) -> Result<(), AllocError>
        requires links { length topology.now.links < 2 ^ 16 }
        requires switch { s < length topology.now.ports }
        ensures { OnOk result (self.new ≡ record self.old { mail = self.old.mail ++ tells_neighbours topology.now self.old.status s down }) }
    {
        for place in 0..topology.ports[usize::from(s)] {
            self.tell_far(topology.far_end(s, place + 1), down)?;
        }
        Ok(())
    }

    // The switch at the far end of a port is told that its link is down or up, if a packet can cross the link.
    fn tell_far(&mut self, far: Option<(u16, u16, u16)>, down: bool) -> Result<(), AllocError>
        ensures { OnOk result (self.new ≡ record self.old {
          mail = self.old.mail ++ option_to_list (option_and_then (λ far. if is_open self.old.status far then Some (tells far.1 (Port far.2 down)) else None) far);
        }) }
    {
        if let Some((link, s, port)) = far {
            if self.status.is_link_up(link) && self.status.is_switch_up(s) {
                self.tell(s, Notice::Port { port, down })?;
            }
        }
        Ok(())
    }

    // A switch joins its controller, if it has one and the channel is up, by the status that the input leads to.
    fn join(&mut self, topology: &Topology, s: u16) -> Result<(), AllocError>
        requires status { IsStatus topology.now self.old.status }
        requires ports { slice_index topology.now.ports s ≤ 48 }
        requires switch { s < length topology.now.ports }
        ensures { OnOk result (self.new ≡ record self.old { mail = self.old.mail ++ joins topology.now self.old.status s }) }
    {
        if self.status.is_control_up(s) && owner_of(topology, s).is_some() {
            let down = down_mask(topology, &self.status, s);
            self.tell(s, Notice::Join { down })?;
        }
        Ok(())
    }

    // The controller of a switch, if it has one, hears that the channel is gone.
    fn tell_gone(&mut self, topology: &Topology, s: u16) -> Result<(), AllocError>
        ensures { OnOk result (self.new ≡ record self.old { mail = self.old.mail ++ tells_gone topology.now s }) }
    {
        if let Some(c) = owner_of(topology, s) {
            self.mail.push((PoolName::App { c, s }, Item::Gone))?;
        }
        Ok(())
    }
}

/// What an input does.
pub(crate) fn effect_of(
    alloc: Global,
    topology: &Topology,
    status: &Status,
    input: &Input,
) -> Result<Effect, AllocError>
    requires status { IsStatus topology.now status.now }
    requires ports { (s : ℕ) → slice_index topology.now.ports s ≤ 48 }
    requires input { (controllers : ℕ) × IsInput topology.now controllers input.now }
    ensures { IfOk result (λ change. change ≡ effect topology.now status.now input.now) }
{
    match *input {
        Input::Inject { host, packet } => injected(alloc, status, host, packet),
        Input::LinkDown(link) if status.is_link_up(link) => link_down(
            alloc, topology, status, link,
        ),
        Input::LinkUp(link) if !status.is_link_up(link) => link_up(alloc, topology, status, link),
        Input::SwitchFail(s) if status.is_switch_up(s) => switch_fails(alloc, topology, status, s),
        Input::SwitchUp(s) if !status.is_switch_up(s) => switch_comes(alloc, topology, status, s),
        Input::ControlDown(s) if has_owner(topology, s) && status.is_control_up(s) => {
            channel_down(alloc, topology, status, s)
        }
        Input::ControlUp(s) if has_owner(topology, s) && !status.is_control_up(s) => {
            channel_up(alloc, topology, status, s)
        }
        Input::HostMove { host, s, p } => host_moves(alloc, status, host, (s, p)),
        Input::Policy { c, deny } => policy(alloc, status, c, deny),
        Input::Seconds(n) => seconds_pass(alloc, status, n),
        _ => Ok(Effect::to(alloc, status.copy()?)),
    }
}

/// The switch that an input makes lose its state, if it makes one.
pub(crate) fn fails(status: &Status, input: &Input) -> Option<u16>
    ensures { result ≡ fails status.now input.now }
{
    match *input {
        Input::SwitchFail(s) if status.is_switch_up(s) => Some(s),
        _ => None,
    }
}

fn has_owner(topology: &Topology, s: u16) -> bool
    ensures { result ≡ has_owner topology.now s }
{
    owner_of(topology, s).is_some()
}

fn injected(alloc: Global, status: &Status, host: u16, packet: Packet) -> Result<Effect, AllocError>
    ensures { IfOk result (λ change. change ≡ injected status.now packet (slice_get status.now.place host)) }
{
    injected_at(alloc, status, place_of(status, host), packet)
}

// Where a host is.
fn place_of(status: &Status, host: u16) -> Option<(u16, u16)>
    ensures { result ≡ slice_get status.now.place host }
{
    Some(*status.place.get(usize::from(host))?)
}

// A packet comes in at a place, if its host is at one.
fn injected_at(
    alloc: Global,
    status: &Status,
    place: Option<(u16, u16)>,
    packet: Packet,
) -> Result<Effect, AllocError>
    ensures { IfOk result (λ change. change ≡ injected status.now packet place) }
{
    let mut change = Effect::to(alloc, status.copy()?);
    if let Some((s, p)) = place {
        if status.is_switch_up(s) {
            change
                .mail
                .push((PoolName::Pkt { s, p }, Item::Packet(packet)))?;
        }
    }
    Ok(change)
}

fn link_down(
    alloc: Global,
    topology: &Topology,
    status: &Status,
    link: u16,
) -> Result<Effect, AllocError>
    requires { link < length status.now.link_up }
    ensures { IfOk result (λ change. change ≡ link_down topology.now status.now link) }
{
    let mut after = status.copy()?;
    after.link_up.replace(usize::from(link), false);
    let mut change = Effect::to(alloc, after);
    cut_ends(&mut change, ends_of(topology, link))?;
    Ok(change)
}

// The ends of a link.
fn ends_of(topology: &Topology, link: u16) -> Option<(u16, u16, u16, u16)>
    ensures { result ≡ slice_get topology.now.links link }
{
    Some(*topology.links.get(usize::from(link))?)
}

// What waits at both ends of a link is lost, and those of its switches that are up are told.
fn cut_ends(change: &mut Effect, ends: Option<(u16, u16, u16, u16)>) -> Result<(), AllocError>
    ensures { OnOk result (let both = option_map_or (λ ends. (ends.0, ends.1) ∷ (ends.2, ends.3) ∷ []) ends [] in change.new ≡ record {
      status = change.old.status;
      flushes = change.old.flushes ++ map (λ (end : ℕ × ℕ). Pkt end.0 end.1) both;
      mail = change.old.mail ++ map (λ (end : ℕ × ℕ). tells end.0 (Port end.1 true)) (filter (λ (end : ℕ × ℕ). is_up change.old.status.switch_up end.0) both);
    }) }
{
    if let Some((s, p, far, far_port)) = ends {
        cut_end(change, s, p)?;
        cut_end(change, far, far_port)?;
    }
    Ok(())
}

// What waits at one end of a link is lost, and its switch is told, if it is up.
fn cut_end(change: &mut Effect, s: u16, p: u16) -> Result<(), AllocError>
    ensures { OnOk result (change.new ≡ record {
      status = change.old.status;
      flushes = change.old.flushes ++ Pkt s p ∷ [];
      mail = change.old.mail ++ (if is_up change.old.status.switch_up s then tells s (Port p true) ∷ [] else []);
    }) }
{
    change.flushes.push(PoolName::Pkt { s, p })?;
    if change.status.is_switch_up(s) {
        change.tell(
            s,
            Notice::Port {
                port: p,
                down: true,
            },
        )?;
    }
    Ok(())
}

fn link_up(
    alloc: Global,
    topology: &Topology,
    status: &Status,
    link: u16,
) -> Result<Effect, AllocError>
    requires { link < length status.now.link_up }
    ensures { IfOk result (λ change. change ≡ link_up topology.now status.now link) }
{
    let mut after = status.copy()?;
    after.link_up.replace(usize::from(link), true);
    let mut change = Effect::to(alloc, after);
    join_ends(&mut change, ends_of(topology, link))?;
    Ok(change)
}

// The switches at both ends of a link are told that it is up, if both are up.
fn join_ends(change: &mut Effect, ends: Option<(u16, u16, u16, u16)>) -> Result<(), AllocError>
    ensures { OnOk result (let both = option_map_or (λ ends. (ends.0, ends.1) ∷ (ends.2, ends.3) ∷ []) ends [] in change.new ≡ record change.old {
      mail = change.old.mail ++ (if list_any (λ (end : ℕ × ℕ). not (is_up change.old.status.switch_up end.0)) both then []
          else map (λ (end : ℕ × ℕ). tells end.0 (Port end.1 false)) both);
    }) }
{
    if let Some((s, p, far, far_port)) = ends {
        if change.status.is_switch_up(s) && change.status.is_switch_up(far) {
            tell_up(change, s, p)?;
            tell_up(change, far, far_port)?;
        }
    }
    Ok(())
}

// A switch is told that the link at a port of it is up.
fn tell_up(change: &mut Effect, s: u16, port: u16) -> Result<(), AllocError>
    ensures { OnOk result (change.new ≡ record change.old { mail = change.old.mail ++ tells s (Port port false) ∷ [] }) }
{
    change.tell(s, Notice::Port { port, down: false })
}

fn switch_fails(
    alloc: Global,
    topology: &Topology,
    status: &Status,
    s: u16,
) -> Result<Effect, AllocError>
    requires status { IsStatus topology.now status.now }
    requires switch { s < length topology.now.ports }
    ensures { IfOk result (λ change. change ≡ switch_fails topology.now status.now s) }
{
    let mut after = status.copy()?;
    after.switch_up.replace(usize::from(s), false);
    let mut change = Effect::to(alloc, after);
    change.flushes = pools_of(alloc, topology, s)?;
    if status.is_control_up(s) {
        change.tell_gone(topology, s)?;
    }
    change.tell_neighbours(topology, s, true)?;
    Ok(change)
}

// The pools of a switch.
fn pools_of(alloc: Global, topology: &Topology, s: u16) -> Result<Listed<PoolName>, AllocError>
    requires { s < length topology.now.ports }
    ensures { IfOk result (λ names. names ≡ pools_of topology.now s) }
{
    let mut names = Listed::new(alloc);
    names.push(PoolName::Ctl(s))?;
    add_ports(&mut names, topology, s)?;
    names.push(PoolName::Note(s))?;
    add_app(&mut names, topology, s)?;
    Ok(names)
}

// Adds the pools of packets at the ports of a switch.
fn add_ports(names: &mut Listed<PoolName>, topology: &Topology, s: u16) -> Result<(), AllocError>
    requires { s < length topology.now.ports }
    ensures { OnOk result (names.new ≡ names.old ++ map (Pkt s) (ports_of topology.now s)) }
{
    for place in 0..topology.ports[usize::from(s)] {
        names.push(PoolName::Pkt { s, p: place + 1 })?;
    }
    Ok(())
}

// Adds the pool of messages from a switch to its controller, if it has one.
fn add_app(names: &mut Listed<PoolName>, topology: &Topology, s: u16) -> Result<(), AllocError>
    ensures { OnOk result (names.new ≡ names.old ++ app_of topology.now s) }
{
    if let Some(c) = owner_of(topology, s) {
        names.push(PoolName::App { c, s })?;
    }
    Ok(())
}

fn switch_comes(
    alloc: Global,
    topology: &Topology,
    status: &Status,
    s: u16,
) -> Result<Effect, AllocError>
    requires status { IsStatus topology.now status.now }
    requires ports { slice_index topology.now.ports s ≤ 48 }
    requires switch { s < length topology.now.ports }
    ensures { IfOk result (λ change. change ≡ switch_comes topology.now status.now s) }
{
    let mut after = status.copy()?;
    after.switch_up.replace(usize::from(s), true);
    let mut change = Effect::to(alloc, after);
    change.tell_neighbours(topology, s, false)?;
    change.join(topology, s)?;
    Ok(change)
}

fn channel_down(
    alloc: Global,
    topology: &Topology,
    status: &Status,
    s: u16,
) -> Result<Effect, AllocError>
    requires { s < length status.now.control_up }
    ensures { IfOk result (λ change. change ≡ channel_down topology.now status.now s) }
{
    let mut after = status.copy()?;
    after.control_up.replace(usize::from(s), false);
    let mut change = Effect::to(alloc, after);
    if status.is_switch_up(s) {
        change.flushes.push(PoolName::Ctl(s))?;
        if let Some(c) = owner_of(topology, s) {
            change.flushes.push(PoolName::App { c, s })?;
        }
        change.tell_gone(topology, s)?;
    }
    Ok(change)
}

fn channel_up(
    alloc: Global,
    topology: &Topology,
    status: &Status,
    s: u16,
) -> Result<Effect, AllocError>
    requires status { IsStatus topology.now status.now }
    requires ports { slice_index topology.now.ports s ≤ 48 }
    requires switch { s < length topology.now.ports }
    ensures { IfOk result (λ change. change ≡ channel_up topology.now status.now s) }
{
    let mut after = status.copy()?;
    after.control_up.replace(usize::from(s), true);
    let mut change = Effect::to(alloc, after);
    if status.is_switch_up(s) {
        change.join(topology, s)?;
    }
    Ok(change)
}

// The ports of a switch at which a link ends that no packet can cross.
fn down_mask(topology: &Topology, status: &Status, s: u16) -> u64
    requires links { length topology.now.links < 2 ^ 16 }
    requires ports { slice_index topology.now.ports s ≤ 48 }
    requires switch { s < length topology.now.ports }
    ensures { result ≡ down_mask topology.now status.now s }
{
    let mut mask = 0;
    for place in 0..topology.ports[usize::from(s)] {
        mask += down_bit(topology, status, s, place + 1);
    }
    mask
}

// The bit of a port in that mask.
fn down_bit(topology: &Topology, status: &Status, s: u16, port: u16) -> u64
    requires links { length topology.now.links < 2 ^ 16 }
    requires some { 1 ≤ port }
    requires most { port ≤ 48 }
    ensures { result ≡ (if option_map_or (λ far. not (is_open status.now far)) (far_end topology.now s port) false then 2 ^ (port - 1) else 0) }
{
    if is_cut(topology, status, s, port) {
        1 << (port - 1)
    } else {
        0
    }
}

// Whether a link ends at the port that no packet can cross.
fn is_cut(topology: &Topology, status: &Status, s: u16, port: u16) -> bool
    requires { length topology.now.links < 2 ^ 16 }
    ensures { result ≡ option_map_or (λ far. not (is_open status.now far)) (far_end topology.now s port) false }
{
    match topology.far_end(s, port) {
        Some((link, far, _)) => !(status.is_link_up(link) && status.is_switch_up(far)),
        None => false,
    }
}

fn host_moves(
    alloc: Global,
    status: &Status,
    host: u16,
    place: (u16, u16),
) -> Result<Effect, AllocError>
    requires few { length status.now.place < 2 ^ 16 }
    requires host { host < length status.now.place }
    ensures { IfOk result (λ change. change ≡ host_moves status.now host place) }
{
    let mut after = status.copy()?;
    if status.host_at(place.0, place.1).is_none() {
        after.place.replace(usize::from(host), place);
    }
    Ok(Effect::to(alloc, after))
}

fn policy(alloc: Global, status: &Status, c: u16, deny: Match) -> Result<Effect, AllocError>
    ensures { IfOk result (λ change. change ≡ sends_only status.now ((Admin c, Policy deny) ∷ [])) }
{
    let mut change = Effect::to(alloc, status.copy()?);
    change.mail.push((PoolName::Admin(c), Item::Policy(deny)))?;
    Ok(change)
}

fn seconds_pass(alloc: Global, status: &Status, n: u32) -> Result<Effect, AllocError>
    requires { length status.now.switch_up < 2 ^ 16 }
    ensures { IfOk result (λ change. change ≡ seconds_pass status.now n) }
{
    let mut change = Effect::to(alloc, status.copy()?);
    for (s, up) in status.switch_up.iter().enumerate() {
        if *up {
            change.tell(s as u16, Notice::Tick(n))?;
        }
    }
    Ok(change)
}
