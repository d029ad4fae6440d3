//! A second passes at a switch without a controller. The line that says so is kept, and left out.
ghost use Rattle.std.specs.Prelude.{[]};
ghost use Rattle.controller_api.specs.Reaction.{Reaction};

use super::{Taken, Why, replay};
use controller_api::{Controller, Outbox, UpItem};
use event_machine::{End, Entry, Event, Input, Limits, Line, Setup, Trace, check_legal};
use listed::Listed;
use message_pools::Item;
use of10_messages::{Message, Notice};
use std::alloc::{AllocError, Global};
use std::test::Fail;
use topology::Topology;

// A controller that does nothing. The setup has none.
#[derive(Debug, Drop)]
struct Idle;

impl Controller for Idle {
    ghost react = { λ idle item. record { state = idle; sent = [] } };

    ghost start = { λ idle. idle };

    ghost policies = { λ idle. 0 };

    fn fresh(&self) -> Result<Idle, AllocError> {
        Ok(Idle)
    }

    fn send(&self, _item: &UpItem, _out: &mut Outbox) -> Result<(), AllocError> {
        Ok(())
    }

    fn hear(&mut self, _item: &UpItem, _sent: &[(u16, Message)]) -> Result<(), AllocError> {
        Ok(())
    }

    fn copy(&self) -> Result<Idle, AllocError> {
        Ok(Idle)
    }
}

// A switch of one port, and a script that lets a second pass.
fn setup(alloc: Global) -> Result<Setup<Idle>, AllocError> {
    Ok(Setup {
        topology: Topology {
            ports: Listed::of(vec![in alloc; 1u16]?),
            owner: Listed::of(vec![in alloc; None]?),
            links: Listed::new(alloc),
            hosts: Listed::new(alloc),
        },
        presets: Listed::of(vec![in alloc; Listed::new(alloc)]?),
        controllers: Listed::new(alloc),
        script: Listed::of(vec![in alloc;
            Line {
                after_quiet: false,
                input: Input::Seconds(1)
            },
        ]?),
        limits: Limits {
            max_events: 10,
            budget: 0,
            workers: 1,
            patience: 0,
        },
    })
}

const TICK: Event = Event::Note { s: 0, item: 0 };

// The run of it: the line is given, and the switch is told.
fn trace(alloc: Global) -> Result<Trace, AllocError> {
    let given = Entry {
        worker: 0,
        number: 0,
        event: Event::In(0),
        item: None,
    };
    let told = Entry {
        worker: 0,
        number: 1,
        event: TICK,
        item: Some(Item::Notice(Notice::Tick(1))),
    };
    Ok(Trace {
        entries: Listed::of(vec![in alloc; given, told]?),
        end: End::Quiet,
    })
}

#[test]
fn a_line_is_kept_or_left_out(rt: HostRuntime) -> Result<(), Fail> {
    let setup = setup(rt.alloc())?;
    let trace = trace(rt.alloc())?;
    assert!(rt; setup.is_valid(rt.alloc())?);
    assert_eq!(rt; setup.script.len(), 1);
    check_legal(rt.alloc(), &setup, &trace)?;
    let whole = replay(rt.alloc(), &setup, &trace, &[true])?;
    let given = Taken {
        event: Event::In(0),
        why: Why::Input,
    };
    let told = Taken {
        event: TICK,
        why: Why::Expected { entry: 1 },
    };
    assert_eq!(rt; whole.run.as_slice(), [given, told].as_slice());
    assert_eq!(rt; whole.absent.len(), 0);
    let none = replay(rt.alloc(), &setup, &trace, &[false])?;
    assert_eq!(rt; none.run.len(), 0);
    assert_eq!(rt; none.absent.as_slice(), [1].as_slice());
    Ok(())
}
