//! The writing of a text to a stream.

ghost use Rattle.std.specs.Prelude.{◌≡◌, ◌+◌, ◌^◌, ◌<◌, ◌≤◌, length, OnOk, IfErr};
ghost use Rattle.std.specs.Io.KnownBytes.{Appends};
ghost use Rattle.sva_streams.specs.Streams.{AppendsProperPrefix};

use crate::streams::DriveFault;
use crate::told::Told;
use std::io::Write;

/// Writes all the bytes, by as many calls of `write` as that takes. `Write` where a call fails or takes nothing, the
/// first such call at once; a prefix of the bytes was written then, and not all of them.
pub fn write_all<W: Write>(writer: &mut Told<W>, bytes: &[u8]) -> Result<(), DriveFault>
    requires calls { writer.old.calls + length bytes.now < 2 ^ 64 }
    ensures ok { OnOk result (Appends (W.contents writer.old.inner) (W.contents writer.new.inner) bytes.now) }
    ensures whole { OnOk result (writer.new.failures ≡ writer.old.failures) }
    ensures err { IfErr result (λ fault. (fault ≡ DriveFault.Write) × (writer.new.failures ≡ writer.old.failures + 1)) }
    ensures front { IfErr result (λ _. AppendsProperPrefix (W.contents writer.old.inner) (W.contents writer.new.inner) bytes.now) }
    ensures calls { writer.new.calls ≤ writer.old.calls + length bytes.now }
{
    let mut written = 0;
    while written < bytes.len() {
        let Some(count) = writer.write_once(&bytes[written..]) else {
            return Err(DriveFault::Write);
        };
        written += count;
    }
    Ok(())
}
