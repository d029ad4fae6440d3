//! What a list of actions does with a packet.

ghost use Rattle.std.specs.Prelude.{◌≡◌, ◌++◌, ◌∷◌, [], All, IfOk, OnOk, map, true, false};
ghost use Rattle.listed.specs.Plain.{plain};
ghost use Rattle.of10_match.specs.Header.{IsValidHeader};
ghost use Rattle.of10_messages.specs.Valid.{IsValidAction};
ghost use Rattle.flow_table.specs.Outcome.{after_action, outcome, outputs_of, outputs_to, ports_but};
ghost use Rattle.flow_table.specs.declared.outputs.Target.TheVariants.{Port};

use listed::Listed;
use of10_match::{Header, OFPP_ALL, OFPP_CONTROLLER, OFPP_FLOOD, OFPP_IN_PORT, OFPP_TABLE};
use of10_messages::Action;
use std::alloc::{AllocError, Global};

/// Where a packet is sent.
#[derive(Clone, Copy, Debug, PartialEq, Eq)]
pub enum Target {
    /// Out of the port of this number. It need not be one of the switch's; `OFPP_TABLE` is for a PACKET_OUT to hand to the
    /// table.
    Port(u16),
    /// To the controller.
    Controller,
}

/// One thing that a list of actions sends.
#[derive(Clone, Copy, Debug, PartialEq, Eq)]
pub struct Output {
    pub target: Target,
    /// The packet's header as the actions before have left it.
    pub header: Header,
    /// Whether an action named the target by itself; FLOOD and ALL name every port at once.
    pub plain: bool,
}

/// What a list of actions sends, in order.
pub type Outputs = Listed<Output>;

/// What a list of actions sends of a packet that came in by a port of a switch with so many ports.
pub fn outcome(
    alloc: Global,
    actions: &[Action],
    ports: u16,
    in_port: u16,
    header: &Header,
) -> Result<Outputs, AllocError>
    requires header { IsValidHeader header.now }
    requires actions { All IsValidAction actions.now }
    ensures outcome { IfOk result (λ outputs. outputs ≡ outcome ports in_port header.now actions.now) }
    ensures valid { IfOk result (λ outputs. All (λ output. IsValidHeader output.header) outputs) }
{
    let mut header = *header;
    let mut outputs = Listed::new(alloc);
    for action in actions {
        put_outputs_of(&mut outputs, ports, in_port, header, action)?;
        header = after_action(header, action);
    }
    Ok(outputs)
}

/// The header after an action.
fn after_action(header: Header, action: &Action) -> Header
    requires header { IsValidHeader header }
    requires action { IsValidAction action.now }
    ensures header { result ≡ after_action header action.now }
    ensures valid { IsValidHeader result }
{
    let mut header = header;
    match action {
        Action::SetVlanVid(vlan) => header.dl_vlan = *vlan,
        Action::SetVlanPcp(pcp) => header.dl_vlan_pcp = *pcp,
        Action::StripVlan => {
            header.dl_vlan = 65535;
            header.dl_vlan_pcp = 0;
        }
        Action::SetDlSrc(address) => header.dl_src = *address,
        Action::SetDlDst(address) => header.dl_dst = *address,
        Action::SetNwSrc(address) => header.nw_src = *address,
        Action::SetNwDst(address) => header.nw_dst = *address,
        Action::SetNwTos(tos) => header.nw_tos = *tos,
        Action::SetTpSrc(port) => header.tp_src = *port,
        Action::SetTpDst(port) => header.tp_dst = *port,
        Action::Output { .. } | Action::Other { .. } => {}
    }
    header
}

/// Adds what an action sends.
fn put_outputs_of(
    outputs: &mut Outputs,
    ports: u16,
    in_port: u16,
    header: Header,
    action: &Action,
) -> Result<(), AllocError>
    ensures { OnOk result (outputs.new ≡ outputs.old ++ outputs_of ports in_port header action.now) }
{
    match action {
        Action::Output { port, .. } => put_outputs(outputs, ports, in_port, header, *port),
        _ => Ok(()),
    }
}

/// Adds what an Output to a port number sends.
fn put_outputs(
    outputs: &mut Outputs,
    ports: u16,
    in_port: u16,
    header: Header,
    port: u16,
) -> Result<(), AllocError>
    ensures { OnOk result (outputs.new ≡ outputs.old ++ outputs_to ports in_port header port) }
{
    match port {
        OFPP_IN_PORT if in_port == 0 || in_port > ports => Ok(()),
        OFPP_IN_PORT => put_output(outputs, Target::Port(in_port), header),
        OFPP_FLOOD | OFPP_ALL => put_others(outputs, ports, in_port, header),
        OFPP_CONTROLLER => put_output(outputs, Target::Controller, header),
        OFPP_TABLE => put_output(outputs, Target::Port(OFPP_TABLE), header),
        _ if port == in_port => Ok(()),
        _ => put_output(outputs, Target::Port(port), header),
    }
}

fn put_output(outputs: &mut Outputs, target: Target, header: Header) -> Result<(), AllocError>
    ensures { OnOk result (outputs.new ≡ outputs.old ++ record { target = target; header = header; plain = true } ∷ []) }
{
    outputs.push(Output {
        target,
        header,
        plain: true,
    })
}

/// Adds every port but the one by which the packet came in.
fn put_others(
    outputs: &mut Outputs,
    ports: u16,
    in_port: u16,
    header: Header,
) -> Result<(), AllocError>
    ensures { OnOk result (outputs.new ≡ outputs.old
        ++ map (λ other. record { target = Port other; header = header; plain = false }) (ports_but ports in_port)) }
{
    for place in 0..ports {
        let port = place + 1;
        if port != in_port {
            outputs.push(Output {
                target: Target::Port(port),
                header,
                plain: false,
            })?;
        }
    }
    Ok(())
}
