//! Writing bytes to a sink, all of them.
ghost use Rattle.std.specs.Prelude.{◌≡◌, ◌≢◌, ℕ, ◌+◌, ◌<◌, ◌≤◌, take, length, IfErr, OnOk, OnErr};
ghost use Rattle.std.specs.Io.KnownBytes.{Appends};
ghost use Rattle.sts_io.specs.Causes.{HasCause};
ghost use Rattle.sts_io.specs.Failures.{gone_of};

use crate::Sink;
use thiserror::Error;

/// Why bytes were not written whole: the sink failed after it had taken the first `gone` of them.
#[derive(Clone, Copy, Debug, PartialEq, Eq, Error)]
pub enum WriteFail {
    #[error("writing failed after {gone} bytes")]
    Fault { gone: u64 },
}

/// Writes all the bytes, in as many calls as the sink asks for. It takes no memory.
pub fn write_all_bytes<K: Sink>(sink: &mut K, bytes: &[u8]) -> Result<(), WriteFail>
    ensures whole { OnOk result (Appends (K.taken sink.old) (K.taken sink.new) bytes.now) }
    ensures gone { IfErr result (λ e. Appends (K.taken sink.old) (K.taken sink.new) (take (gone_of e) bytes.now)) }
    ensures not_whole { IfErr result (λ e. gone_of e < length bytes.now) }
    ensures cause { HasCause (K.faults sink.old) (K.faults sink.new) result }
{
    let mut gone = 0;
    while gone < bytes.len() {
        match sink.write(&bytes[gone..]) {
            Ok(count) => gone += count,
            Err(_) => return Err(WriteFail::Fault { gone: gone as u64 }),
        }
    }
    Ok(())
}
