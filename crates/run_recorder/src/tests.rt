//! One worker records a run: a second passes at a switch without a controller. Then nobody does, and the rule of one thread records it.
//! Two record one in which a packet is lost before the switch takes it.
ghost use Rattle.std.specs.Prelude.{◌≡◌, IfOk, []};
ghost use Rattle.controller_api.specs.Reaction.{Reaction};
ghost use Rattle.run_recorder.specs.Answers.{IsDue, IsPartOf};
ghost use Rattle.run_recorder.specs.Recorder.{recorded};

use super::laws::{a_look_keeps_a_deed_due, an_offer_is_due};
use super::{Committed, Deed, Gate, Left, Offered, OpenGate, Part, Recorder, record};
use controller_api::{Controller, Outbox, UpItem};
use event_machine::{Actor, End, Event, Input, Limits, Line, Script, Setup};
use listed::Listed;
use of10_match::{Header, Packet};
use of10_messages::Message;
use std::alloc::{AllocError, Global};
use std::test::Fail;
use topology::{Hosts, Topology};

// A web request from the first host to the second one.
const PACKET: Packet = Packet {
    header: Header {
        dl_src: 1,
        dl_dst: 2,
        dl_vlan: 65535,
        dl_vlan_pcp: 0,
        dl_type: 2048,
        nw_tos: 0,
        nw_proto: 6,
        nw_src: 10,
        nw_dst: 20,
        tp_src: 1000,
        tp_dst: 80,
    },
    tag: 7,
};

// A controller that does nothing. The setup has none.
#[derive(Debug, Drop)]
struct Idle;

impl Controller for Idle {
    ghost react = { λ idle item. record { state = idle; sent = [] } };

    ghost start = { λ idle. idle };

    ghost policies = { λ idle. 0 };

    fn fresh(&self) -> Result<Idle, AllocError> {
        Ok(Idle)
    }

    fn send(&self, _item: &UpItem, _out: &mut Outbox) -> Result<(), AllocError> {
        Ok(())
    }

    fn hear(&mut self, _item: &UpItem, _sent: &[(u16, Message)]) -> Result<(), AllocError> {
        Ok(())
    }

    fn copy(&self) -> Result<Idle, AllocError> {
        Ok(Idle)
    }
}

// One switch without a controller, of so many ports, with these hosts and this script.
fn setup(
    alloc: Global,
    ports: u16,
    hosts: Hosts,
    script: Script,
    limits: Limits,
) -> Result<Setup<Idle>, AllocError>
    ensures { IfOk result (λ setup. setup.limits ≡ limits) }
{
    Ok(Setup {
        topology: Topology {
            ports: Listed::of(vec![in alloc; ports]?),
            owner: Listed::of(vec![in alloc; None]?),
            links: Listed::new(alloc),
            hosts,
        },
        presets: Listed::of(vec![in alloc; Listed::new(alloc)]?),
        controllers: Listed::new(alloc),
        script,
        limits,
    })
}

// A line of a script that waits for nothing.
fn line(input: Input) -> Line {
    Line {
        after_quiet: false,
        input,
    }
}

// A switch of one port, and a script that lets a second pass.
fn second_passes(alloc: Global, workers: u32, patience: u32) -> Result<Setup<Idle>, AllocError>
    ensures { IfOk result (λ setup. setup.limits.workers ≡ workers) }
{
    let script = Listed::of(vec![in alloc; line(Input::Seconds(1))]?);
    let limits = Limits {
        max_events: 10,
        budget: 0,
        workers,
        patience,
    };
    setup(alloc, 1, Listed::new(alloc), script, limits)
}

// A switch with a host at each of its two ports. The first host sends a packet, which is lost as the switch fails, and sends it again
// once the switch is up.
fn packet_is_lost(alloc: Global) -> Result<Setup<Idle>, AllocError>
    ensures { IfOk result (λ setup. setup.limits.workers ≡ 2) }
{
    let hosts = Listed::of(vec![in alloc; (0u16, 1u16, 1u64), (0, 2, 2)]?);
    let script = Listed::of(vec![in alloc;
        line(Input::Inject {
            host: 0,
            packet: PACKET
        }),
        line(Input::SwitchFail(0)),
        line(Input::SwitchUp(0)),
        line(Input::Inject {
            host: 0,
            packet: PACKET
        }),
    ]?);
    let limits = Limits {
        max_events: 100,
        budget: 0,
        workers: 2,
        patience: 0,
    };
    setup(alloc, 2, hosts, script, limits)
}

// Offers an actor's work to a part, and enters it: the place of the entry, and none where the run is complete.
fn go_on<'a>(
    recorder: &Recorder<'a, Idle>,
    part: &mut Part<'a, Idle>,
    actor: Actor,
) -> Result<Option<u64>, Fail>
    requires { IsPartOf (recorded recorder.now) part.old }
    ensures { IsPartOf (recorded recorder.now) part.new }
{
    an_offer_is_due::<Idle>();
    if !part.has(actor) {
        return Err("the part has the actor".into());
    }
    match recorder.offer(part, actor) {
        Offered::Work(task) => match recorder.commit(part, task.work()) {
            Committed::Entered { place } => Ok(Some(place)),
            _ => Err("the deed is entered".into()),
        },
        Offered::Ended { .. } => Ok(None),
        _ => Err("there is work".into()),
    }
}

// The deed of the work that a part is offered for an actor.
fn offered<'a, C: Controller>(
    recorder: &Recorder<'a, C>,
    part: &mut Part<'a, C>,
    actor: Actor,
) -> Result<Deed, Fail>
    requires { IsPartOf (recorded recorder.now) part.old }
    ensures part { IsPartOf (recorded recorder.now) part.new }
    ensures due { IfOk result (λ deed. IsDue C.react C.start part.new deed) }
{
    an_offer_is_due::<C>();
    if !part.has(actor) {
        return Err("the part has the actor".into());
    }
    match recorder.offer(part, actor) {
        Offered::Work(task) => Ok(task.work()),
        _ => Err("there is work".into()),
    }
}

// Tries to enter a deed that was overtaken: the number of its item, and that of the first one of its pool. It stays due.
fn overtaken<'a, C: Controller>(
    recorder: &Recorder<'a, C>,
    part: &mut Part<'a, C>,
    deed: Deed,
) -> Result<(u64, Option<u64>), Fail>
    requires part { IsPartOf (recorded recorder.now) part.old }
    requires due { IsDue C.react C.start part.old deed }
    ensures part { IsPartOf (recorded recorder.now) part.new }
    ensures due { IfOk result (λ _. IsDue C.react C.start part.new deed) }
{
    a_look_keeps_a_deed_due::<C>();
    part.known();
    match recorder.commit(part, deed) {
        Committed::Overtaken { item, head, .. } => Ok((item, head)),
        _ => Err("the deed is overtaken".into()),
    }
}

#[test]
fn one_worker_records(rt: HostRuntime) -> Result<(), Fail> {
    let setup = second_passes(rt.alloc(), 1, 0)?;
    assert!(rt; setup.is_valid(rt.alloc())?);
    let (recorder, mut parts) = Recorder::open(rt.alloc(), &setup, 1)?;
    let mut part = parts.remove(1);
    assert_eq!(rt; part.worker(), 1);
    let input = go_on(&recorder, &mut part, Actor::Script)?;
    let notice = go_on(&recorder, &mut part, Actor::Switch(0))?;
    let none = go_on(&recorder, &mut part, Actor::Script)?;
    assert_eq!(rt; (input, notice, none), (Some(0), Some(1), None));
    assert_eq!(rt; (part.own(), part.seen()), (2, 2));
    Ok(())
}

#[test]
fn the_rest_is_recorded_alone(rt: HostRuntime) -> Result<(), Fail> {
    let setup = second_passes(rt.alloc(), 1, 0)?;
    assert!(rt; setup.is_valid(rt.alloc())?);
    let (recorder, parts) = Recorder::open(rt.alloc(), &setup, 1)?;
    let (trace, world) = recorder.rest(parts)?;
    assert_eq!(rt; (trace.entries.len(), trace.end), (2, End::Quiet));
    assert_eq!(rt; (world.events(), world.inputs()), (2, 1));
    Ok(())
}

#[test]
fn one_worker_goes_round(rt: HostRuntime) -> Result<(), Fail> {
    let setup = second_passes(rt.alloc(), 1, 4)?;
    assert!(rt; setup.is_valid(rt.alloc())?);
    let (recorder, mut parts) = Recorder::open(rt.alloc(), &setup, 1)?;
    let mut part = parts.remove(1);
    let mut gate = OpenGate::new();
    let left = recorder.drive(&mut part, &mut gate);
    assert_eq!(rt; (left, part.own()), (Left::Ended { place: 2 }, 2));
    Ok(())
}

#[test]
fn an_open_gate_lets_through(_rt: HostRuntime) -> Result<(), Fail> {
    let mut gate = OpenGate::new();
    gate.pass(1, 0);
    Ok(())
}

#[test]
fn two_record_at_once(rt: HostRuntime) -> Result<(), Fail> {
    let setup = second_passes(rt.alloc(), 2, 1000)?;
    assert!(rt; setup.is_valid(rt.alloc())?);
    let mut gates = [OpenGate::new(), OpenGate::new()];
    let trace = record(&rt, rt.alloc(), &setup, &mut gates)?;
    assert_eq!(rt; (trace.entries.len(), trace.end), (2, End::Quiet));
    Ok(())
}

#[test]
fn a_deed_is_overtaken(rt: HostRuntime) -> Result<(), Fail> {
    let setup = packet_is_lost(rt.alloc())?;
    assert!(rt; setup.is_valid(rt.alloc())?);
    let (recorder, mut parts) = Recorder::open(rt.alloc(), &setup, 2)?;
    let mut second = parts.remove(2);
    let mut first = parts.remove(1);
    let sent = go_on(&recorder, &mut first, Actor::Script)?;
    let deed = offered(&recorder, &mut second, Actor::Switch(0))?;
    assert_eq!(rt;
        deed.task.event,
        Event::Pkt {
            s: 0,
            p: 1,
            item: 0
        }
    );
    let failed = go_on(&recorder, &mut first, Actor::Script)?;
    assert_eq!(rt; (sent, failed), (Some(0), Some(1)));
    assert_eq!(rt; overtaken(&recorder, &mut second, deed)?, (0, None));
    let up = go_on(&recorder, &mut first, Actor::Script)?;
    let again = go_on(&recorder, &mut first, Actor::Script)?;
    assert_eq!(rt; (up, again), (Some(2), Some(3)));
    assert_eq!(rt; overtaken(&recorder, &mut second, deed)?, (0, Some(1)));
    let next = offered(&recorder, &mut second, Actor::Switch(0))?;
    assert_eq!(rt;
        next.task.event,
        Event::Pkt {
            s: 0,
            p: 1,
            item: 1
        }
    );
    let taken = recorder.commit(&mut second, next);
    assert_eq!(rt; taken, Committed::Entered { place: 4 });
    Ok(())
}
