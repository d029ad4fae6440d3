//! What the switch of a stop sends, for all headers of a class at once.

ghost use Rattle.std.specs.Prelude.{◌≡◌, ◌++◌, All, IfOk, OnOk, map};
ghost use Rattle.std.specs.List.{AllZip};
ghost use Rattle.of10_match.specs.declared.header.Header.{Header};
ghost use Rattle.of10_messages.specs.Valid.{IsValidAction};
ghost use Rattle.flow_table.specs.Outcome.{outcome};
ghost use Rattle.header_classes.specs.Rewrite.{IsValidRewrite, rewritten};
ghost use Rattle.header_classes.specs.Trials.{AreTrials};
ghost use Rattle.invariant_check.specs.Class.{IsNarrowed};
ghost use Rattle.invariant_check.specs.Network.{IsNet};
ghost use Rattle.invariant_check.specs.Stop.{AreHops, IsStop, hop_of, output_at};

use crate::class::Class;
use crate::stop::{Hop, Hops, Stop};
use event_world::NetState;
use flow_table::{Output, outcome};
use header_classes::{Rewrite, Trials};
use listed::Listed;
use of10_match::Header;
use of10_messages::Action;
use std::alloc::{AllocError, Global};
use std::slice;

/// What an action sends, and to where, is the same for each header.
const ANY_HEADER: Header = Header {
    dl_src: 0,
    dl_dst: 0,
    dl_vlan: 0,
    dl_vlan_pcp: 0,
    dl_type: 0,
    nw_tos: 0,
    nw_proto: 0,
    nw_src: 0,
    nw_dst: 0,
    tp_src: 0,
    tp_dst: 0,
};

/// What the switch of a stop sends of a packet there: the class is narrowed until it is the same for all its headers.
pub(crate) fn hops_of(
    alloc: Global,
    net: &NetState,
    trials: &[Trials],
    class: &mut Class,
    stop: &Stop,
) -> Result<Hops, AllocError>
    requires net { IsNet net.now }
    requires trials { AllZip AreTrials net.now.tables trials.now }
    requires stop { IsStop net.now stop.now }
    ensures narrowed { IsNarrowed class.old class.new }
    ensures hops { IfOk result (λ hops. AreHops net.now class.new.cell stop.now hops) }
    ensures sets { IfOk result (λ hops. All (λ hop. IsValidRewrite hop.sets) hops) }
{
    let s = usize::from(stop.s);
    let ports = net.topology.ports[s];
    let table = &net.tables[s];
    match class.best(&stop.sets, stop.p, &trials[s]) {
        Some(place) => hops_of_actions(alloc, ports, stop, &table.entries()[place].actions),
        None => hops_of_actions(alloc, ports, stop, &[]),
    }
}

/// What a list of actions sends of a packet at a stop of a switch with so many ports.
fn hops_of_actions(
    alloc: Global,
    ports: u16,
    stop: &Stop,
    actions: &[Action],
) -> Result<Hops, AllocError>
    requires actions { All IsValidAction actions.now }
    requires sets { IsValidRewrite stop.now.sets }
    ensures hops { IfOk result (λ hops. (h : Header)
        → outcome ports stop.now.p (rewritten stop.now.sets h) actions.now ≡ map (output_at h) hops) }
    ensures sets { IfOk result (λ hops. All (λ hop. IsValidRewrite hop.sets) hops) }
{
    let mut sets = stop.sets;
    let mut hops = Listed::new(alloc);
    for action in actions {
        let sent = outcome(alloc, slice::from_ref(action), ports, stop.p, &ANY_HEADER)?;
        put_hops(&mut hops, &sent, sets)?;
        sets.act(action);
    }
    Ok(hops)
}

/// Adds outputs as hops after some sets.
fn put_hops(hops: &mut Hops, sent: &[Output], sets: Rewrite) -> Result<(), AllocError>
    ensures { OnOk result (hops.new ≡ hops.old ++ map (hop_of sets) sent.now) }
{
    for output in sent {
        hops.push(Hop {
            target: output.target,
            sets,
            plain: output.plain,
        })?;
    }
    Ok(())
}
