//! FLOW_MODs of 80 bytes: decoded, encoded, and viewed in place.
ghost use Rattle.std.specs.Prelude.{All, IfOk};
ghost use Rattle.of10_messages.specs.Valid.{IsValidMessage};

use crate::figure::Figure;
use anyhow::Result;
use of10_messages::{BadMessage, Message, decode, encode};
use of10_view::View;
use std::alloc::{AllocError, Global};
use std::time::{Clock, Instant};

/// ADD with all twelve fields of a match, and one output.
const FLOW_MOD: &[u8] =
    b"\x01\x0e\x00\x50\x00\x00\x00\x04\x00\x00\x00\x00\x00\x02\x00\x00\x00\x00\x00\x02\x00\x00\x00\x00\x00\x01\xff\xff\x00\x00\x08\x00\x00\x06\x00\x00\x00\x00\x00\x14\x00\x00\x00\x0a\x00\x50\x03\xe8\x00\x00\x00\x00\x00\x00\x00\x01\x00\x00\x00\x00\x00\x00\x80\x00\xff\xff\xff\xff\xff\xff\x00\x00\x00\x00\x00\x08\x00\x01\x00\x00";

/// How many messages one round goes over. They differ in xid and cookie, so that no answer can be used again.
pub const ROUND: u8 = 100;

#[derive(Clone, Copy, Debug)]
pub struct Figures {
    /// The sum is that of the cookies.
    pub decoded: Figure,
    /// The sum is that of the lengths.
    pub encoded: Figure,
    /// The sum is that of the xids.
    pub viewed: Figure,
}

/// The messages of a round, as bytes.
fn wires(alloc: Global) -> std::result::Result<Vec<Vec<u8>>, AllocError> {
    let mut wires = Vec::new(alloc);
    for number in 0..ROUND {
        let mut bytes = Vec::from_slice(alloc, FLOW_MOD)?;
        for place in [7usize, 55] {
            if let Some(byte) = bytes.get_mut(place) {
                *byte = number;
            }
        }
        wires.push(bytes)?;
    }
    Ok(wires)
}

fn messages(alloc: Global, wires: &[Vec<u8>]) -> std::result::Result<Vec<Message>, BadMessage>
    ensures { IfOk result (λ v. All (λ m. IsValidMessage m) v.items) }
{
    let mut messages = Vec::new(alloc);
    for bytes in wires {
        let message = decode(alloc, bytes.as_slice())?;
        messages.push(message).map_err(AllocError::from)?;
    }
    Ok(messages)
}

/// Decodes each, round after round.
fn cookies(alloc: Global, wires: &[Vec<u8>], rounds: u64) -> std::result::Result<u64, BadMessage> {
    let mut sum: u64 = 0;
    for _ in 0..rounds {
        for bytes in wires {
            match &decode(alloc, bytes.as_slice()) {
                Ok(Message::FlowMod { mods, .. }) => sum = sum.wrapping_add(mods.cookie),
                Ok(_) => {}
                Err(bad) => return Err(*bad),
            }
        }
    }
    Ok(sum)
}

/// Encodes each, round after round.
fn lengths(alloc: Global, messages: &[Message], rounds: u64) -> std::result::Result<u64, AllocError>
    requires { All (λ m. IsValidMessage m) messages.now }
{
    let mut sum: u64 = 0;
    for _ in 0..rounds {
        for message in messages {
            sum = sum.wrapping_add(encode(alloc, message)?.len() as u64);
        }
    }
    Ok(sum)
}

/// Makes a view of each, round after round.
fn xids(wires: &[Vec<u8>], rounds: u64) -> std::result::Result<u64, BadMessage> {
    let mut sum: u64 = 0;
    for _ in 0..rounds {
        for bytes in wires {
            let (_, _, xid) = View::of(bytes.as_slice())?.header();
            sum = sum.wrapping_add(u64::from(xid));
        }
    }
    Ok(sum)
}

/// Times so many rounds of each.
pub fn timed<R: Clock + AllocGlobal + Sync>(rt: &R, rounds: u64) -> Result<Figures> {
    let alloc = rt.alloc();
    let wires = wires(alloc)?;
    let messages = messages(alloc, wires.as_slice())?;
    let start = Instant::now(rt)?;
    let sum = cookies(alloc, wires.as_slice(), rounds)?;
    let decoded = Figure {
        time: start.elapsed(rt)?,
        sum,
    };
    let start = Instant::now(rt)?;
    let sum = lengths(alloc, messages.as_slice(), rounds)?;
    let encoded = Figure {
        time: start.elapsed(rt)?,
        sum,
    };
    let start = Instant::now(rt)?;
    let sum = xids(wires.as_slice(), rounds)?;
    let viewed = Figure {
        time: start.elapsed(rt)?,
        sum,
    };
    Ok(Figures {
        decoded,
        encoded,
        viewed,
    })
}
