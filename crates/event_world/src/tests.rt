//! A switch with a controller of a few lines, which is told a policy and loses the switch.
ghost use Rattle.std.specs.Prelude.{[], ◌∷◌, ◌+◌};
ghost use Rattle.controller_api.specs.declared.item.UpItem.TheVariants.{FromSwitch, Gone, Policy};
ghost use Rattle.machine_setup.specs.Setup.{IsValidSetup};
ghost use Rattle.of10_messages.specs.declared.message.Message.TheVariants.{Hello};
ghost use Rattle.event_world.specs.Fits.{Fits};

use super::{Actor, Event, StepNo, World};
use controller_api::{Controller, Outbox, UpItem};
use listed::Listed;
use machine_setup::{Input, Limits, Line, Script, Setup};
use of10_match::Match;
use of10_messages::Message;
use std::alloc::{AllocError, Global};
use std::test::Fail;
use topology::Topology;

// It greets each switch that greets it, and counts the policies.
#[derive(Debug, Drop)]
struct Greeter {
    policies: u32,
}

impl Controller for Greeter {
    ghost react = { λ greeter. elim [
      | FromSwitch s message ↦ record { state = greeter; sent = (s, Hello 0) ∷ [] }
      | Gone s ↦ record { state = greeter; sent = [] }
      | Policy deny ↦ record { state = record { policies = greeter.policies + 1 }; sent = [] }
    ] };

    ghost start = { λ greeter. record { policies = 0 } };

    ghost policies = { λ greeter. greeter.policies };

    fn fresh(&self) -> Result<Greeter, AllocError> {
        Ok(Greeter { policies: 0 })
    }

    fn send(&self, item: &UpItem, out: &mut Outbox) -> Result<(), AllocError> {
        match item {
            UpItem::FromSwitch(s, _) => out.send(*s, Message::hello(0)),
            UpItem::Gone(_) | UpItem::Policy(_) => Ok(()),
        }
    }

    fn hear(&mut self, item: &UpItem, _sent: &[(u16, Message)]) -> Result<(), AllocError> {
        if let UpItem::Policy(_) = item {
            self.policies += 1;
        }
        Ok(())
    }

    fn copy(&self) -> Result<Greeter, AllocError> {
        Ok(Greeter {
            policies: self.policies,
        })
    }
}

fn script_of(alloc: Global, inputs: &[Input]) -> Result<Script, AllocError> {
    let mut script = Listed::new(alloc);
    for input in inputs {
        script.push(Line {
            after_quiet: false,
            input: *input,
        })?;
    }
    Ok(script)
}

const LIMITS: Limits = Limits {
    max_events: 100,
    budget: 1,
    workers: 1,
    patience: 0,
};

// One switch with a controller and a host, and the inputs of a script.
fn one_switch(alloc: Global, inputs: &[Input]) -> Result<Setup<Greeter>, AllocError> {
    let mut presets = Listed::new(alloc);
    presets.push(Listed::new(alloc))?;
    let mut controllers = Listed::new(alloc);
    controllers.push(Greeter { policies: 0 })?;
    Ok(Setup {
        topology: Topology {
            ports: Listed::of(vec![in alloc; 1u16]?),
            owner: Listed::of(vec![in alloc; Some(0u16)]?),
            links: Listed::new(alloc),
            hosts: Listed::of(vec![in alloc; (0u16, 1u16, 1u64)]?),
        },
        presets,
        controllers,
        script: script_of(alloc, inputs)?,
        limits: LIMITS,
    })
}

// Lets an event happen, as long as few did.
fn step(world: &mut World<Greeter>, setup: &Setup<Greeter>, event: Event) -> Result<(), StepNo>
    requires setup { IsValidSetup setup.now }
    requires fits { Fits (λ greeter. greeter.policies) setup.now world.old }
    ensures { Fits (λ greeter. greeter.policies) setup.now world.new }
{
    if world.events() > 1000 || world.inputs() > 1000 {
        return Err(StepNo::OutOfMemory);
    }
    world.step(setup, &event)
}

// The next event by the rule of one thread: the first that is enabled, else the script's next line.
fn go(world: &mut World<Greeter>, setup: &Setup<Greeter>) -> Result<Option<Event>, StepNo>
    requires setup { IsValidSetup setup.now }
    requires fits { Fits (λ greeter. greeter.policies) setup.now world.old }
    ensures { Fits (λ greeter. greeter.policies) setup.now world.new }
{
    let next = match world.enabled_first() {
        Some(event) => Some(event),
        None => world.first_of(setup, Actor::Script),
    };
    if let Some(event) = next {
        step(world, setup, event)?;
    }
    Ok(next)
}

// Whether the next events by that rule are these.
fn runs(
    world: &mut World<Greeter>,
    setup: &Setup<Greeter>,
    events: &[Option<Event>],
) -> Result<bool, StepNo>
    requires setup { IsValidSetup setup.now }
    requires fits { Fits (λ greeter. greeter.policies) setup.now world.old }
    ensures { Fits (λ greeter. greeter.policies) setup.now world.new }
{
    for event in events {
        if go(world, setup)? != *event {
            return Ok(false);
        }
    }
    Ok(true)
}

#[test]
fn a_controller_is_joined_and_lost(rt: HostRuntime) -> Result<(), Fail> {
    let inputs = [
        Input::Policy {
            c: 0,
            deny: Match::any(),
        },
        Input::SwitchFail(0),
    ];
    let setup = one_switch(rt.alloc(), &inputs)?;
    assert!(rt; setup.is_valid(rt.alloc())?);
    let mut world = World::start(rt.alloc(), &setup)?;
    let events = [
        Some(Event::Note { s: 0, item: 0 }),
        Some(Event::App {
            c: 0,
            s: 0,
            item: 0,
        }),
        Some(Event::Ctl { s: 0, item: 0 }),
        Some(Event::In(0)),
        Some(Event::Admin { c: 0, item: 0 }),
        Some(Event::In(1)),
        Some(Event::App {
            c: 0,
            s: 0,
            item: 1,
        }),
        None,
    ];
    assert!(rt; runs(&mut world, &setup, &events)?);
    Ok(())
}
