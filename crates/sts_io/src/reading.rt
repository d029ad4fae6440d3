//! Reading a source to its end.
ghost use Rattle.std.specs.Prelude.{◌≡◌, ◌≢◌, ℕ, ◌+◌, ◌<◌, ◌≤◌, ◌++◌, take, length, vec_len, Err, IfOk, IfSome, OnOk, OnErr, IsErrOf};
ghost use Rattle.std.specs.Io.KnownBytes.{Consumes, IsAtEnd, Keeps};
ghost use Rattle.sts_io.specs.Causes.{Rose};
ghost use Rattle.sts_io.specs.Taken.{TakesAtMost, TakesCount};
ghost use Rattle.sts_io.specs.declared.reading.ReadFail.TheVariants.{Fault, TooLong, OutOfMemory};

use crate::{Failed, Source};
use std::alloc::{AllocError, Global};
use thiserror::Error;

/// Why a source was not read to its end: it failed, it gave more bytes than the limit, or memory was wanting.
#[derive(Clone, Copy, Debug, PartialEq, Eq, Error)]
pub enum ReadFail {
    #[error("reading failed")]
    Fault,
    #[error("the input is too long")]
    TooLong,
    #[error("out of memory")]
    OutOfMemory,
}

impl From<Failed> for ReadFail {
    ghost from_gives = { λ _ e. e ≡ Fault };

    fn from(_failed: Failed) -> ReadFail {
        ReadFail::Fault
    }
}

impl From<AllocError> for ReadFail {
    ghost from_gives = { λ _ e. e ≡ OutOfMemory };

    fn from(_error: AllocError) -> ReadFail {
        ReadFail::OutOfMemory
    }
}

// How many bytes are asked for in one call.
const PIECE: usize = 65_536;

/// Reads the source to its end. It asks for as many bytes at a time as a piece holds, and for one byte
/// past the limit at most. Each turn takes at least one byte.
pub fn read_all<S: Source>(alloc: Global, source: &mut S, limit: u64) -> Result<Vec<u8>, ReadFail>
    // All bytes up to the end, within the limit.
    ensures whole { IfOk result (λ bytes. IfSome (S.left source.old) (λ all. bytes.items ≡ all)) }
    ensures end { OnOk result (IsAtEnd (S.left source.new)) }
    ensures fits { IfOk result (λ bytes. vec_len bytes ≤ limit) }

    // Whatever the answer, a prefix was taken: more than the limit exactly at `TooLong`.
    ensures within { result ≢ Err ReadFail.TooLong → TakesAtMost limit (S.left source.old) (S.left source.new) }
    ensures too_long { IsErrOf result ReadFail.TooLong → TakesCount (limit + 1) (S.left source.old) (S.left source.new) }

    // A fault comes only where the source's faults rose, and none is passed over.
    ensures later { S.faults source.old ≤ S.faults source.new }
    ensures fault { IsErrOf result ReadFail.Fault → Rose (S.faults source.old) (S.faults source.new) }
    ensures no_fault { result ≢ Err ReadFail.Fault → S.faults source.new ≡ S.faults source.old }
{
    let mut space = vec![in alloc; 0; PIECE]?;
    let piece = space.as_mut_slice();
    let mut bytes = Vec::new(alloc);
    loop {
        let room = limit - bytes.len() as u64;
        let size = room.min(PIECE as u64 - 1) as usize + 1;
        let count = read_piece(source, &mut piece[..size], room, &mut bytes)?;
        if count == 0 {
            return Ok(bytes);
        }
    }
}

// Reads once and appends what came, of which there may be `room` bytes. No byte is the end.
fn read_piece<S: Source>(
    source: &mut S,
    piece: &mut [u8],
    room: u64,
    bytes: &mut Vec<u8>,
) -> Result<usize, ReadFail>
    requires some { 0 < length piece.old }
    requires at_most_one_more { length piece.old ≤ room + 1 }
    ensures ok { IfOk result (λ n. Consumes (S.left source.old) (S.left source.new) (take n piece.new)) }
    ensures appended { IfOk result (λ n. bytes.new.items ≡ bytes.old.items ++ take n piece.new) }
    ensures fits { IfOk result (λ n. (vec_len bytes.new ≡ vec_len bytes.old + n) × (n ≤ room)) }
    ensures end { IfOk result (λ n. n ≡ 0 → IsAtEnd (S.left source.new)) }
    ensures within { result ≢ Err ReadFail.TooLong → TakesAtMost room (S.left source.old) (S.left source.new) }
    ensures too_long { IsErrOf result ReadFail.TooLong → TakesCount (room + 1) (S.left source.old) (S.left source.new) }
    ensures later { S.faults source.old ≤ S.faults source.new }
    ensures fault { IsErrOf result ReadFail.Fault → Rose (S.faults source.old) (S.faults source.new) }
    ensures no_fault { result ≢ Err ReadFail.Fault → S.faults source.new ≡ S.faults source.old }
{
    let count = source.read(piece)?;
    if count as u64 > room {
        return Err(ReadFail::TooLong);
    }
    bytes.extend_from_slice(&piece[..count])?;
    Ok(count)
}
