//! The world that a run comes to.
ghost use Rattle.std.specs.Prelude.{◌≡◌, ◌<◌, ◌≤◌, ◌^◌, ◌↔◌, ℕ, length, None, IsTrue, IfOk, IfErr, OnOk, OnErr, All, map, option_map, slice_get};
ghost use Rattle.pool_book.specs.Pools.{IsQuiet};
ghost use Rattle.machine_setup.specs.Setup.{IsPresets, IsPresetsAt, IsValidSetup, entry_of};
ghost use Rattle.event_world.specs.Answers.{IsActor, IsInputEvent, IsRefusal, first_event_of, network_of, next_line};
ghost use Rattle.event_world.specs.Events.{input_count};
ghost use Rattle.event_world.specs.Fits.{Fits};
ghost use Rattle.event_world.specs.World.{IsEnabled, counted_world, first_event, happened, head_for, head_number, next, start, switches_at_start, with_line};

use crate::event::Event;
use crate::net_state::{NetState, Tables};
use crate::shell::Shell;
use controller_api::Controller;
use flow_table::Table;
use listed::Listed;
use machine_setup::{Controllers, Preset, Setup, SwitchPresets};
use message_pools::Item;
use pool_book::{Actor, PoolName};
use std::alloc::{AllocError, Global};
use std::marker::Model;
use switch_core::Switch;
use thiserror::Error;

/// Why a step was refused.
#[derive(Clone, Copy, Debug, PartialEq, Eq, Error)]
pub enum StepNo {
    /// The event's pool has no item, or its first one has another number, which is given; or a name is out of range, or the
    /// script has no such line.
    #[error("the event is not enabled")]
    NotEnabled { head: Option<u64> },
    #[error("out of memory")]
    OutOfMemory,
}

impl From<AllocError> for StepNo {
    ghost use Rattle.std.specs.Prelude.{◌≡◌};
    ghost use Rattle.event_world.specs.declared.world.StepNo.TheVariants.{OutOfMemory};

    ghost from_gives = { λ _ no. no ≡ OutOfMemory };

    fn from(_: AllocError) -> StepNo {
        StepNo::OutOfMemory
    }
}

/// What the machine has come to: what all actors share, and the state of each switch and of each controller.
#[derive(Drop)]
pub struct World<C> {
    pub(crate) shell: Shell,
    pub(crate) switches: Listed<Switch>,
    pub(crate) controllers: Controllers<C>,
    pub(crate) alloc: Global,
}

impl<C> Model for World<C> {
    ghost use Rattle.event_world.specs.Shell.{shared_of};
    ghost use Rattle.event_world.specs.World.{Situation};

    ghost Value = { Situation C };

    ghost view = { λ w. record { shared = shared_of w.shell; switches = w.switches; controllers = w.controllers } };
}

impl<C: Controller> World<C> {
    /// The world with which a setup starts: all is up, each switch has its presets and is to join its controller, if it has
    /// one.
    pub fn start(alloc: Global, setup: &Setup<C>) -> Result<World<C>, AllocError>
        requires { IsValidSetup setup.now }
        ensures start { IfOk result (λ world. world ≡ start C.start setup.now) }
        ensures fits { IfOk result (λ world. Fits C.policies setup.now world) }
    {
        let count = setup.controllers.len() as u16;
        Ok(World {
            shell: Shell::start(alloc, &setup.topology, count)?,
            switches: start_switches(
                alloc,
                setup.topology.ports.as_slice(),
                setup.presets.as_slice(),
            )?,
            controllers: fresh_controllers(alloc, setup.controllers.as_slice())?,
            alloc,
        })
    }

    /// Lets an event happen. A refused step leaves the world as it was.
    pub fn step(&mut self, setup: &Setup<C>, event: &Event) -> Result<(), StepNo>
        requires setup { IsValidSetup setup.now }
        requires fits { Fits C.policies setup.now self.old }
        requires events { self.old.shared.events < 2 ^ 31 }
        requires inputs { IsInputEvent event.now → self.old.shared.inputs < 4294 }
        ensures ok { OnOk result (IsEnabled setup.now self.old event.now × (self.new ≡ next C.react setup.now self.old event.now)) }
        ensures fits { Fits C.policies setup.now self.new }
        ensures err { OnErr result (self.new ≡ self.old) }
        ensures refused { IfErr result (λ no. IsRefusal setup.now self.old event.now no) }
    {
        if !self.is_enabled(setup, event) {
            return Err(StepNo::NotEnabled {
                head: self.head_number(event),
            });
        }
        self.happen(setup, event)?;
        self.shell.events += 1;
        self.shell.inputs += event.input_count();
        Ok(())
    }

    // What an event does, but for the counts.
    fn happen(&mut self, setup: &Setup<C>, event: &Event) -> Result<(), AllocError>
        requires setup { IsValidSetup setup.now }
        requires fits { Fits C.policies setup.now self.old }
        requires events { self.old.shared.events < 2 ^ 31 }
        requires inputs { IsInputEvent event.now → self.old.shared.inputs < 4294 }
        requires enabled { IsEnabled setup.now self.old event.now }
        ensures ok { OnOk result (self.new ≡ happened C.react setup.now self.old event.now) }
        ensures fits { OnOk result (Fits C.policies setup.now (counted_world (input_count event.now) self.new)) }
        ensures err { OnErr result (self.new ≡ self.old) }
    {
        match event.pool() {
            Some(name) => self.act(setup, name),
            None => self.give_line(setup, event.number() as usize),
        }
    }

    // The input of a line of the script is given.
    fn give_line(&mut self, setup: &Setup<C>, position: usize) -> Result<(), AllocError>
        requires setup { IsValidSetup setup.now }
        requires fits { Fits C.policies setup.now self.old }
        requires events { self.old.shared.events < 2 ^ 31 }
        requires inputs { self.old.shared.inputs < 4294 }
        requires position { position < length setup.now.script }
        ensures ok { OnOk result (self.new ≡ with_line C.react setup.now.topology (slice_get setup.now.script position) self.old) }
        ensures fits { OnOk result (Fits C.policies setup.now (counted_world 1 self.new)) }
        ensures err { OnErr result (self.new ≡ self.old) }
    {
        let lines = setup.script.as_slice();
        self.give(setup, &lines[position].input)
    }

    // Whether the event can happen.
    fn is_enabled(&self, setup: &Setup<C>, event: &Event) -> bool
        ensures { IsTrue result ↔ IsEnabled setup.now self.now event.now }
    {
        match *event {
            Event::In(position) => (position as usize) < setup.script.len(),
            _ => self.head_number(event) == Some(event.number()),
        }
    }

    // The number of the first item of the pool that an event takes from.
    fn head_number(&self, event: &Event) -> Option<u64>
        ensures { result ≡ head_number self.now.shared event.now }
    {
        let (number, _) = self.head_of(event)?;
        Some(number)
    }

    /// The first item of the pool that an event takes from, with its number. `None` where that pool is empty or is not there,
    /// and for an input.
    pub fn head_of(&self, event: &Event) -> Option<(u64, &Item)>
        ensures { option_map (λ head. (head.0, head.1.now)) result ≡ head_for self.now.shared event.now }
    {
        self.shell.pools.pool(event.pool()?)?.head()
    }

    /// The first internal event that is enabled, in the order of pools.
    pub fn enabled_first(&self) -> Option<Event>
        ensures event { result ≡ first_event self.now.shared }
        ensures none { (result ≡ None) ↔ IsQuiet self.now.shared.pools }
    {
        let (name, item) = self.shell.pools.first()?;
        Some(Event::taking(name, item))
    }

    /// The first event of an actor that is enabled, in the order of pools; for the script its next line, unless that has to
    /// wait. The actor has to be one of the setup's.
    pub fn first_of(&self, setup: &Setup<C>, actor: Actor) -> Option<Event>
        requires { IsActor setup.now actor }
        ensures { result ≡ first_event_of setup.now self.now.shared actor }
    {
        if actor == Actor::Script {
            return self.next_line(setup);
        }
        let (name, item) = self.shell.pools.first_of(actor)?;
        Some(Event::taking(name, item))
    }

    // The next line of the script, unless it has to wait.
    fn next_line(&self, setup: &Setup<C>) -> Option<Event>
        ensures { result ≡ next_line setup.now.script self.now.shared }
    {
        let line = setup.script.get(self.shell.inputs as usize)?;
        if line.after_quiet && !self.quiet() {
            return None;
        }
        Some(Event::In(self.shell.inputs))
    }

    /// Whether nothing waits.
    pub fn quiet(&self) -> bool
        ensures { IsTrue result ↔ IsQuiet self.now.shared.pools }
    {
        self.shell.pools.is_quiet()
    }

    /// How many events happened since the start.
    pub fn events(&self) -> u32
        ensures { result ≡ self.now.shared.events }
    {
        self.shell.events
    }

    /// How many inputs happened since the start.
    pub fn inputs(&self) -> u32
        ensures { result ≡ self.now.shared.inputs }
    {
        self.shell.inputs
    }

    /// The forwarding state: the network, what of it is up, and the flow table of each switch.
    pub fn network(&self, setup: &Setup<C>) -> Result<NetState, AllocError>
        ensures { IfOk result (λ net. net ≡ network_of setup.now.topology self.now) }
    {
        Ok(NetState {
            topology: setup.topology.copy(self.alloc)?,
            status: self.shell.status.copy()?,
            tables: copied_tables(self.alloc, self.switches.as_slice())?,
        })
    }

    /// A second world that has come to the same.
    pub fn copy(&self) -> Result<World<C>, AllocError>
        ensures { IfOk result (λ world. world ≡ self.now) }
    {
        Ok(World {
            shell: self.shell.copy()?,
            switches: copied_switches(self.alloc, self.switches.as_slice())?,
            controllers: copied_controllers(self.alloc, self.controllers.as_slice())?,
            alloc: self.alloc,
        })
    }
}

// ---- the start

// Each switch with its presets in its table.
fn start_switches(
    alloc: Global,
    ports: &[u16],
    presets: &[SwitchPresets],
) -> Result<Listed<Switch>, AllocError>
    requires presets { IsPresets ports.now presets.now }
    requires ports { All (λ count. (1 ≤ count) × (count ≤ 48)) ports.now }
    requires few { length ports.now ≤ 64 }
    ensures { IfOk result (λ switches. switches ≡ switches_at_start ports.now presets.now) }
{
    let mut switches = Listed::new(alloc);
    for (s, list) in presets.iter().enumerate() {
        let table = start_table(alloc, list.as_slice())?;
        switches.push(Switch::starting(alloc, s as u16, ports[s], table))?;
    }
    Ok(switches)
}

// A table with presets.
fn start_table(alloc: Global, presets: &[Preset]) -> Result<Table, AllocError>
    requires { (ports : ℕ) × (ports ≤ 48) × IsPresetsAt ports presets.now }
    ensures { IfOk result (λ table. table ≡ map entry_of presets.now) }
{
    let mut entries = Vec::new(alloc);
    for preset in presets {
        entries.push(preset.entry()?)?;
    }
    Ok(Table::of(entries))
}

// Each controller in the state with which it starts.
fn fresh_controllers<C: Controller>(
    alloc: Global,
    controllers: &[C],
) -> Result<Controllers<C>, AllocError>
    ensures start { IfOk result (λ fresh. fresh ≡ map C.start controllers.now) }
    ensures policies { IfOk result (λ fresh. All (λ c. C.policies c ≡ 0) fresh) }
{
    let mut fresh = Listed::new(alloc);
    for controller in controllers {
        fresh.push(controller.fresh()?)?;
    }
    Ok(fresh)
}

// ---- copies

fn copied_switches(alloc: Global, switches: &[Switch]) -> Result<Listed<Switch>, AllocError>
    ensures { IfOk result (λ copies. copies ≡ switches.now) }
{
    let mut copies = Listed::new(alloc);
    for switch in switches {
        copies.push(switch.copy()?)?;
    }
    Ok(copies)
}

fn copied_controllers<C: Controller>(
    alloc: Global,
    controllers: &[C],
) -> Result<Controllers<C>, AllocError>
    ensures { IfOk result (λ copies. copies ≡ controllers.now) }
{
    let mut copies = Listed::new(alloc);
    for controller in controllers {
        copies.push(controller.copy()?)?;
    }
    Ok(copies)
}

fn copied_tables(alloc: Global, switches: &[Switch]) -> Result<Tables, AllocError>
    ensures { IfOk result (λ tables. tables ≡ map (λ switch. switch.table) switches.now) }
{
    let mut tables = Listed::new(alloc);
    for switch in switches {
        tables.push(switch.table().copy()?)?;
    }
    Ok(tables)
}
