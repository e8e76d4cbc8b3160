//! All of some bytes into a sink, and all of a source's bytes into memory.

ghost use Rattle.std.specs.Prelude.{◌≡◌, ℕ, List, ◌+◌, ◌<◌, ◌++◌, take, length, IfOk, IfErr};
ghost use Rattle.std.specs.Prelude.{OnOk, OnErr, IsErrOf};
ghost use Rattle.std.specs.Io.KnownBytes.{Consumes, IsAtEnd};

use crate::failed::Failed;
use crate::input_fault::InputFault;
use crate::sink::Sink;
use crate::source::Source;
use std::alloc::Global;

/// How many bytes one read asks for.
const PIECE: usize = 64 * 1024;

/// Writes all of the bytes, in as many writes as the sink needs. At an `Err` so many bytes were
/// written.
pub fn write_out<K: Sink>(sink: &mut K, bytes: &[u8]) -> Result<(), u64>
    ensures ok { OnOk result (K.sent sink.new ≡ K.sent sink.old ++ bytes.now) }
    ensures err { IfErr result (λ n. K.sent sink.new ≡ K.sent sink.old ++ take n bytes.now) }
    ensures short { IfErr result (λ n. n < length bytes.now) }
    ensures well { OnOk result (K.failures sink.new ≡ K.failures sink.old) }
    ensures failed { OnErr result (K.failures sink.new ≡ K.failures sink.old + 1) }
{
    let mut written = 0;
    while written < bytes.len() {
        match sink.write(&bytes[written..]) {
            Ok(n) => written += n,
            Err(Failed) => return Err(written as u64),
        }
    }
    Ok(())
}

/// Reads the input to its end.
pub fn read_to_end<S: Source>(alloc: Global, source: &mut S) -> Result<Vec<u8>, InputFault>
    // Whatever comes, the source only gave more bytes.
    ensures grows { (more : List ℕ)
        × (S.received source.new ≡ S.received source.old ++ more) }
    ensures received { IfOk result (λ all.
        S.received source.new ≡ S.received source.old ++ all.items) }
    ensures known { IfOk result (λ all.
        Consumes (S.remaining source.old) (S.remaining source.new) all.items) }
    ensures end { OnOk result (IsAtEnd (S.remaining source.new)) }
    ensures well { OnOk result (S.failures source.new ≡ S.failures source.old) }
    ensures read { IsErrOf result InputFault.Read
        → S.failures source.new ≡ S.failures source.old + 1 }
    ensures memory { IsErrOf result InputFault.Memory
        → S.failures source.new ≡ S.failures source.old }
{
    let mut all = Vec::new(alloc);
    let mut buffer = [0; PIECE];
    let reads = source.reads_left();
    for _ in 0..reads {
        let n = match source.read(&mut buffer) {
            Ok(n) => n,
            Err(Failed) => return Err(InputFault::Read),
        };
        if n == 0 {
            return Ok(all);
        }
        if all.extend_from_slice(&buffer[..n]).is_err() {
            return Err(InputFault::Memory);
        }
    }
    // No read is left, so that this one fails.
    let _ = source.read(&mut buffer);
    Err(InputFault::Read)
}
