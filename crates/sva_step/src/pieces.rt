//! The pieces of a text, appended one after another.
ghost use Rattle.std.specs.Prelude.{◌≡◌, ◌++◌, take, codes, decimal, OnOk, OnErr};
ghost use Rattle.sva_step.specs.Texts.{BeginsWith};

use itoa::Buffer;
use std::alloc::AllocError;

/// Appends some words.
pub(crate) fn put(out: &mut Vec<u8>, words: &str) -> Result<(), AllocError>
    ensures ok { OnOk result (out.new.items ≡ out.old.items ++ words.now) }
    ensures err { OnErr result (out.new.items ≡ out.old.items) }
{
    out.extend_from_slice(words.as_bytes())
}

/// Appends some words and a decimal number.
pub(crate) fn put_number(out: &mut Vec<u8>, words: &str, number: u64) -> Result<(), AllocError>
    ensures ok { OnOk result (out.new.items ≡ out.old.items ++ (words.now ++ decimal number)) }
    ensures err { OnErr result (BeginsWith out.new.items out.old.items) }
{
    put(out, words)?;
    put(out, Buffer::new().format(number))
}

/// Takes back what was appended behind the first `before` bytes, where that ended in an `Err`.
pub(crate) fn undo(
    out: &mut Vec<u8>,
    before: usize,
    written: Result<(), AllocError>,
) -> Result<(), AllocError>
    ensures same { result ≡ written }
    ensures ok { OnOk result (out.new.items ≡ out.old.items) }
    ensures err { OnErr result (out.new.items ≡ take before out.old.items) }
{
    if written.is_err() {
        out.truncate(before);
    }
    written
}
