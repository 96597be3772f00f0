//! Pages in hexadecimal digits, and ITags as a list.

ghost use Rattle.std.specs.Prelude.{◌≡◌, option_map, true};
ghost use Rattle.std.specs.Char.{digit_value, is_ascii_hexdigit};
ghost use Rattle.std.specs.List.{list_all};
ghost use Rattle.sva_script.specs.Numbers.{are_digits, list_in, page_by, page_in, with_itag};

/// The page that `0x` and 1 to 16 hexadecimal digits write.
pub fn page_in(word: &[u8]) -> Option<u64>
    ensures { result ≡ page_in word.now }
{
    match word {
        [b'0', b'x', digits @ ..] => page_by(digits),
        _ => None,
    }
}

/// The page that 1 to 16 hexadecimal digits write.
fn page_by(digits: &[u8]) -> Option<u64>
    ensures { result ≡ page_by digits.now }
{
    if !are_digits(digits) {
        return None;
    }
    let mut page: u64 = 0;
    for byte in digits {
        page = page * 16 + u64::from(hex_digit(*byte));
    }
    Some(page)
}

/// Are these 1 to 16 hexadecimal digits?
fn are_digits(digits: &[u8]) -> bool
    ensures { result ≡ are_digits digits.now }
{
    !digits.is_empty() && digits.len() <= 16 && are_hex(digits)
}

/// Are all bytes hexadecimal digits?
fn are_hex(digits: &[u8]) -> bool
    ensures { result ≡ list_all is_ascii_hexdigit digits.now }
{
    digits.iter().all(|byte| byte.is_ascii_hexdigit())
}

/// What a hexadecimal digit is worth.
fn hex_digit(byte: u8) -> u8
    requires { is_ascii_hexdigit byte ≡ true }
    ensures { result ≡ digit_value byte }
{
    match byte {
        b'0'..=b'9' => byte - b'0',
        b'a'..=b'f' => byte - b'a' + 10,
        _ => byte - b'A' + 10,
    }
}

/// The vector with the bit of an ITag set, 0 to 31.
pub(crate) fn with_itag(vector: u32, itag: u64) -> Option<u32>
    ensures { result ≡ with_itag vector itag }
{
    if itag > 31 {
        return None;
    }
    Some(vector | 1 << itag as u32)
}

/// What stands between the braces of a list.
pub(crate) fn list_in(word: &[u8]) -> Option<&[u8]>
    ensures { option_map (λ list. list.now) result ≡ list_in word.now }
{
    match word {
        [b'{', inside @ .., b'}'] => Some(inside),
        _ => None,
    }
}
