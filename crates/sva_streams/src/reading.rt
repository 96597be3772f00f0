//! The reading of a whole stream.

ghost use Rattle.std.specs.Prelude.{◌≡◌, ◌<◌, ◌≤◌, ◌⊎◌, ◌≢◌, length, take, IfOk, OnOk, IfSome};
ghost use Rattle.std.specs.Io.KnownBytes.{IsAtEnd};
ghost use Rattle.sva_streams.specs.Streams.{IsNew};

use crate::streams::DriveFault;
use crate::told::Told;
use std::alloc::Global;
use std::io::Read;

/// How many calls of `read` are made at most.
pub const MOST_TURNS: u64 = 2_097_152;

/// How many bytes are kept at most: one more than a scenario may have, so that one that is too large is told.
pub const MOST_KEPT: usize = 1_048_577;

/// All that the reader gives, or its first 1,048,577 bytes; it is read to its end in each case. `Read` where the
/// reader fails or the calls are spent, the first failure at once; `Memory` where a growth was refused, which takes a byte to be kept.
pub fn read_all<R: Read>(alloc: Global, reader: &mut Told<R>) -> Result<Vec<u8>, DriveFault>
    requires { IsNew reader.old }
    ensures ok { IfOk result (λ bytes. IfSome (R.remaining reader.old.inner) (λ input. bytes.items ≡ take MOST_KEPT input)) }
    ensures end { OnOk result ((reader.new.failures ≡ 0) × IsAtEnd (R.remaining reader.new.inner)) }
    ensures read { result ≡ Err DriveFault.Read → (reader.new.failures ≡ 1) ⊎ ((reader.new.failures ≡ 0) × (reader.new.calls ≡ MOST_TURNS)) }
    ensures memory { result ≡ Err DriveFault.Memory → (reader.new.failures ≡ 0)
        × (0 < reader.new.calls) × IfSome (R.remaining reader.old.inner) (λ input. 0 < length input) }
    ensures write { result ≢ Err DriveFault.Write }
    ensures asked { 0 < reader.new.calls }
    ensures turns { reader.new.calls ≤ MOST_TURNS }
{
    let mut kept = Vec::new(alloc);
    let mut piece = [0u8; 4096];
    for _turn in 0..MOST_TURNS {
        let Some(count) = reader.read_once(&mut piece) else {
            return Err(DriveFault::Read);
        };
        if count == 0 {
            return Ok(kept);
        }
        let more = count.min(MOST_KEPT - kept.len());
        if kept.extend_from_slice(&piece[..more]).is_err() {
            return Err(DriveFault::Memory);
        }
    }
    Err(DriveFault::Read)
}
