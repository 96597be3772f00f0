//! The pieces of a text, appended one after another.

ghost use Rattle.std.specs.Prelude.{◌≡◌, ◌%◌, ◌∷◌, [], decimal};
ghost use Rattle.std.specs.Char.{digit_char};
ghost use Rattle.sva_grammar.specs.Laws.{hexadecimal};
ghost use Rattle.sva_script.specs.Pieces.{Puts};

use crate::faults::Stop;
use itoa::Buffer;

/// Appends some bytes.
pub fn put(out: &mut Vec<u8>, bytes: &[u8]) -> Result<(), Stop>
    ensures { Puts bytes.now out.old.items out.new.items result }
{
    match out.extend_from_slice(bytes) {
        Ok(()) => Ok(()),
        Err(_) => Err(Stop::Memory),
    }
}

/// Appends a space.
pub(crate) fn put_space(out: &mut Vec<u8>) -> Result<(), Stop>
    ensures { Puts (32 ∷ []) out.old.items out.new.items result }
{
    match out.push(b' ') {
        Ok(()) => Ok(()),
        Err(_) => Err(Stop::Memory),
    }
}

/// Appends a decimal number.
pub fn put_number(out: &mut Vec<u8>, number: u64) -> Result<(), Stop>
    ensures { Puts (decimal number) out.old.items out.new.items result }
{
    put(out, Buffer::new().format(number).as_bytes())
}

/// Appends a vector: eight hexadecimal digits in lower case.
pub(crate) fn put_vector(out: &mut Vec<u8>, vector: u32) -> Result<(), Stop>
    ensures { Puts (hexadecimal 8 vector) out.old.items out.new.items result }
{
    let digits = [
        digit(vector >> 28),
        digit(vector >> 24),
        digit(vector >> 20),
        digit(vector >> 16),
        digit(vector >> 12),
        digit(vector >> 8),
        digit(vector >> 4),
        digit(vector),
    ];
    put(out, &digits)
}

/// The digit of a number's last four bits.
fn digit(number: u32) -> u8
    ensures { result ≡ digit_char (number % 16) }
{
    let low = (number % 16) as u8;
    if low < 10 {
        b'0' + low
    } else {
        b'a' + (low - 10)
    }
}
