//! A text at the first of its separators.

ghost use Rattle.std.specs.Prelude.{◌≡◌, ◌==◌, ◌<◌, [], ◌∷◌, length, position, IfNone, IfSome};
ghost use Rattle.std.specs.List.{slice_split};

/// The first part of a text that has a separator, and what follows that.
pub(crate) fn first_part(text: &[u8], separator: u8) -> Option<(&[u8], &[u8])>
    ensures some { IfSome result (λ found. slice_split (λ byte. byte == separator) text.now
        ≡ found.0.now ∷ slice_split (λ byte. byte == separator) found.1.now) }
    ensures shorter { IfSome result (λ found. length found.1.now < length text.now) }
    ensures none { IfNone result (slice_split (λ byte. byte == separator) text.now ≡ text.now ∷ []) }
{
    match separator_in(text, separator) {
        Some(end) => Some((&text[..end], &text[end + 1..])),
        None => None,
    }
}

/// Where the first separator of a text is.
fn separator_in(text: &[u8], separator: u8) -> Option<usize>
    ensures at { result ≡ position (λ byte. byte == separator) text.now }
    ensures within { IfSome result (λ end. end < length text.now) }
{
    text.iter().position(|byte| *byte == separator)
}
