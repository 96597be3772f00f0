//! The lines of a script.

ghost use Rattle.std.specs.Prelude.{◌≡◌, ◌==◌, ◌+◌, ◌<◌, ◌≤◌, ◌^◌, [], ◌∷◌, IfNone, IfSome, false, length, nat_lt, position};
ghost use Rattle.sva_grammar.specs.Grammar.{is_too_large, lines_of};
ghost use Rattle.sva_script_reading.specs.Begins.{lines_from};

/// The most bytes that a script may have.
const MOST_BYTES: usize = 1_048_576;

/// The most lines that a script may have.
const MOST_LINES: u64 = 65_536;

/// The lines of a text, from the front, each with its number: LF ends a line, and the last LF may be missing.
#[derive(Clone, Copy, Drop)]
pub struct Lines<'a> {
    /// What is left of the text.
    pub rest: &'a [u8],
    /// The number of the line before.
    pub number: u64,
    /// A line has a byte or more, so there are no more lines than bytes.
    ghost fits: { number + length rest.now < 2 ^ 63 },
}

impl<'a> Lines<'a> {
    /// The lines of a text.
    pub fn new(text: &'a [u8]) -> Self
        requires { length text.now < 2 ^ 63 }
        ensures rest { result.rest.now ≡ text.now }
        ensures number { result.number ≡ 0 }
    {
        Lines {
            rest: text,
            number: 0,
        }
    }

    /// Takes the first line off, with its number, from 1 on.
    pub fn next(&mut self) -> Option<(u64, &'a [u8])>
        ensures line { IfSome result (λ line. lines_from (self.old.number + 1) self.old.rest.now
            ≡ (line.0, line.1.now) ∷ lines_from (self.new.number + 1) self.new.rest.now) }
        ensures number { IfSome result (λ line. line.0 ≡ self.new.number) }
        ensures counted { IfSome result (λ line. self.new.number ≡ self.old.number + 1) }
        ensures shorter { IfSome result (λ line. length self.new.rest.now < length self.old.rest.now) }
        ensures none { IfNone result (lines_of self.old.rest.now ≡ []) }
        ensures same { IfNone result (self.new ≡ self.old) }
    {
        if self.rest.is_empty() {
            return None;
        }
        let (line, rest) = first_line(self.rest);
        self.rest = rest;
        self.number += 1;
        Some((self.number, line))
    }
}

/// The first line of a text, and what follows it.
fn first_line(text: &[u8]) -> (&[u8], &[u8])
    requires { 0 < length text.now }
    ensures lines { lines_of text.now ≡ result.0.now ∷ lines_of result.1.now }
    ensures shorter { length result.1.now < length text.now }
{
    match end_in(text) {
        Some(end) => (&text[..end], &text[end + 1..]),
        None => (text, &text[text.len()..]),
    }
}

/// Where the first LF of a text is.
pub fn end_in(text: &[u8]) -> Option<usize>
    ensures at { result ≡ position (λ byte. byte == 10) text.now }
    ensures within { IfSome result (λ end. end < length text.now) }
{
    text.iter().position(|byte| *byte == b'\n')
}

/// Has the text more bytes or more lines than a script may have?
pub fn is_too_large(text: &[u8]) -> bool
    ensures exactly { result ≡ is_too_large text.now }
    ensures short { result ≡ false → length text.now ≤ 1048576 }
{
    text.len() > MOST_BYTES || has_many_lines(text)
}

/// Has the text more lines than a script may have?
fn has_many_lines(text: &[u8]) -> bool
    requires { length text.now ≤ 1048576 }
    ensures { result ≡ nat_lt 65536 (length (lines_of text.now)) }
{
    let mut lines = Lines::new(text);
    while let Some(_line) = lines.next() {}
    lines.number > MOST_LINES
}
