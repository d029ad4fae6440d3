//! Why a switch refuses a request.

ghost use Rattle.std.specs.Prelude.{◌≡◌};
ghost use Rattle.switch_core.specs.Refusal.{action_refusal, actions_refusal, flow_mod_refusal, is_output_port};

use of10_match::{OFPP_ALL, OFPP_CONTROLLER, OFPP_FLOOD, OFPP_IN_PORT, OFPP_TABLE};
use of10_messages::errors::*;
use of10_messages::{
    Action, FlowMod, OFPAT_VENDOR, OFPFC_DELETE_STRICT, OFPFC_MODIFY_STRICT, OFPFF_EMERG,
};

/// The type and the code of an ERROR.
pub(crate) type Refusal = (u16, u16);

/// Whether an Output of a FLOW_MOD or a PACKET_OUT may name a port.
fn is_output_port(in_packet_out: bool, ports: u16, port: u16) -> bool
    ensures { result ≡ is_output_port in_packet_out ports port }
{
    match port {
        OFPP_IN_PORT | OFPP_FLOOD | OFPP_ALL | OFPP_CONTROLLER => true,
        OFPP_TABLE if in_packet_out => true,
        _ => 1 <= port && port <= ports,
    }
}

/// Why an action is refused, if it is.
fn action_refusal(in_packet_out: bool, ports: u16, action: &Action) -> Option<Refusal>
    ensures { result ≡ action_refusal in_packet_out ports action.now }
{
    let code = match action {
        Action::Other { kind, .. } if *kind == OFPAT_VENDOR => OFPBAC_BAD_VENDOR,
        Action::Other { .. } => OFPBAC_BAD_TYPE,
        Action::Output { port, .. } if !is_output_port(in_packet_out, ports, *port) => {
            OFPBAC_BAD_OUT_PORT
        }
        Action::SetVlanVid(vlan) if *vlan > 4095 => OFPBAC_BAD_ARGUMENT,
        Action::SetVlanPcp(pcp) if *pcp > 7 => OFPBAC_BAD_ARGUMENT,
        _ => return None,
    };
    Some((OFPET_BAD_ACTION, code))
}

/// Why the first action that is refused is, if there is one.
pub(crate) fn actions_refusal(
    in_packet_out: bool,
    ports: u16,
    actions: &[Action],
) -> Option<Refusal>
    ensures { result ≡ actions_refusal in_packet_out ports actions.now }
{
    for action in actions {
        if let Some(refusal) = action_refusal(in_packet_out, ports, action) {
            return Some(refusal);
        }
    }
    None
}

/// Why a FLOW_MOD is refused before the table is asked, if it is.
pub(crate) fn flow_mod_refusal(ports: u16, mods: &FlowMod) -> Option<Refusal>
    ensures { result ≡ flow_mod_refusal ports mods.now }
{
    if mods.flags & OFPFF_EMERG != 0 {
        Some((OFPET_FLOW_MOD_FAILED, OFPFMFC_EPERM))
    } else if mods.command > OFPFC_DELETE_STRICT {
        Some((OFPET_FLOW_MOD_FAILED, OFPFMFC_BAD_COMMAND))
    } else if mods.command <= OFPFC_MODIFY_STRICT {
        actions_refusal(false, ports, mods.actions.as_slice())
    } else {
        None
    }
}
