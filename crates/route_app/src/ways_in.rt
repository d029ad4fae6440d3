//! The ways in to each switch.
ghost use Rattle.std.specs.Prelude.{◌≡◌, ◌<◌, [], length, replicate, IfOk, OnOk};
ghost use Rattle.route_app.specs.Table.{AreWithin};
ghost use Rattle.route_app.specs.Ways.{with_both, with_way, AreWaysIn};

use crate::reach::{WayIn, WaysIn, Wire};
use listed::Listed;
use std::alloc::{AllocError, Global};

/// The ways in to each of so many switches: two of each link.
pub fn ways_in_of(alloc: Global, size: usize, wires: &[Wire]) -> Result<WaysIn, AllocError>
    requires { AreWithin size wires.now }
    ensures length { IfOk result (λ ways_in. length ways_in ≡ size) }
    ensures ways { IfOk result (λ ways_in. AreWaysIn (length wires.now) wires.now ways_in) }
{
    let mut ways_in = none_yet(alloc, size)?;
    for (link, wire) in wires.iter().enumerate() {
        add_both(&mut ways_in, link, *wire)?;
    }
    Ok(ways_in)
}

/// No ways in to each of so many switches.
fn none_yet(alloc: Global, size: usize) -> Result<WaysIn, AllocError>
    ensures { IfOk result (λ ways_in. ways_in ≡ replicate size []) }
{
    let mut ways_in = Listed::new(alloc);
    for _ in 0..size {
        ways_in.push(Listed::new(alloc))?;
    }
    Ok(ways_in)
}

/// Puts a link to the switches at its ends.
fn add_both(ways_in: &mut WaysIn, link: usize, wire: Wire) -> Result<(), AllocError>
    requires first { wire.0 < length ways_in.old }
    requires second { wire.2 < length ways_in.old }
    ensures length { OnOk result (length ways_in.new ≡ length ways_in.old) }
    ensures added { OnOk result (ways_in.new ≡ with_both link wire ways_in.old) }
{
    add(
        ways_in,
        wire.2,
        WayIn {
            from: wire.0,
            port: wire.1,
            link,
        },
    )?;
    add(
        ways_in,
        wire.0,
        WayIn {
            from: wire.2,
            port: wire.3,
            link,
        },
    )
}

/// Puts a way in to a switch.
fn add(ways_in: &mut WaysIn, s: u16, way: WayIn) -> Result<(), AllocError>
    requires { s < length ways_in.old }
    ensures { OnOk result (ways_in.new ≡ with_way s way ways_in.old) }
{
    ways_in.item_mut(usize::from(s)).push(way)
}
