//! What a switch says of itself and of its ports.

ghost use Rattle.std.specs.Prelude.{◌≡◌, ◌≤◌, ◌<◌, ◌++◌, ◌∷◌, IfOk, replicate, take};
ghost use Rattle.of10_messages.specs.Valid.{IsValidFeatures, IsValidPort};
ghost use Rattle.switch_core.specs.Ports.{features, is_down, port_desc, port_digits, with_port};
ghost use Rattle.switch_core.specs.State.{IsState};

use crate::state::State;
use listed::Listed;
use of10_messages::{Features, OFPPS_LINK_DOWN, PortDesc};
use std::alloc::{AllocError, Global};

/// The types of actions that a switch applies, one bit for each: all from OUTPUT to SET_TP_DST.
const ACTIONS: u32 = (1 << 11) - 1;

/// Whether a mask of down ports has a port.
pub(crate) fn is_down(down: u64, port: u16) -> bool
    requires some { 1 ≤ port }
    requires most { port ≤ 64 }
    ensures { result ≡ is_down down port }
{
    (down >> (port - 1)) % 2 == 1
}

/// The mask with the bit of a port set or cleared.
pub(crate) fn with_port(down: u64, port: u16, goes_down: bool) -> u64
    requires some { 1 ≤ port }
    requires most { port ≤ 64 }
    ensures { result ≡ with_port down port goes_down }
{
    if is_down(down, port) == goes_down {
        down
    } else {
        down ^ (1 << (port - 1))
    }
}

/// The name of a port: `p` and its number, with zeros after it.
fn name_of(port: u16) -> [u8; 16]
    requires { port < 100 }
    ensures { result ≡ take 16 (112 ∷ (port_digits port ++ replicate 16 0)) }
{
    let mut name = [0; 16];
    name[0] = b'p';
    if port < 10 {
        name[1] = b'0' + port as u8;
    } else {
        name[1] = b'0' + (port / 10) as u8;
        name[2] = b'0' + (port % 10) as u8;
    }
    name
}

/// The description of a port of a switch.
pub(crate) fn port_desc(state: &State, port: u16) -> PortDesc
    requires state { IsState state.now }
    requires some { 1 ≤ port }
    requires most { port ≤ state.now.ports }
    ensures port { result ≡ port_desc state.now port }
    ensures valid { IsValidPort result }
{
    PortDesc {
        port_no: port,
        hw_addr: (2 << 40) + (u64::from(state.number) + 1) * 65536 + u64::from(port),
        name: name_of(port),
        config: 0,
        state: if is_down(state.down, port) {
            OFPPS_LINK_DOWN
        } else {
            0
        },
        curr: 0,
        advertised: 0,
        supported: 0,
        peer: 0,
    }
}

/// What the switch says of itself.
pub(crate) fn features(alloc: Global, state: &State) -> Result<Features, AllocError>
    requires { IsState state.now }
    ensures features { IfOk result (λ f. f ≡ features state.now) }
    ensures valid { IfOk result (λ f. IsValidFeatures f) }
{
    let mut ports = Listed::new(alloc);
    for place in 0..state.ports {
        ports.push(port_desc(state, place + 1))?;
    }
    Ok(Features {
        datapath_id: u64::from(state.number) + 1,
        n_buffers: 0,
        n_tables: 1,
        capabilities: 0,
        actions: ACTIONS,
        ports,
    })
}
