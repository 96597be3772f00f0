//! A line that is shown in place.

ghost use Rattle.std.specs.Prelude.{◌≡◌, ◌++◌, OnOk, false};
ghost use Rattle.sva_several.specs.Seconds.{seconds_text};

use itoa::Buffer;
use std::alloc::AllocError;
use std::io::Write;
use std::marker::Model;
use std::time::{Clock, Duration};

/// A line that is shown in place, if that is seen on a terminal. What can't be written is left out.
#[derive(Drop)]
pub struct InPlace<W, C> {
    to: W,
    clock: C,
    /// When it was made.
    begun: Option<Duration>,
    is_terminal: bool,
    /// How many columns the line takes that is shown.
    width: usize,
}

impl<W, C> Model for InPlace<W, C> {
    ghost use Rattle.sva_several.specs.Places.{Place};

    ghost Value = { Place W };

    ghost view = { λ shown. record { to = shown.to; is_terminal = shown.is_terminal } };
}

/// Appends how many seconds have passed, if that is known.
pub fn put_seconds(out: &mut Vec<u8>, seconds: Option<u64>) -> Result<(), AllocError>
    ensures { OnOk result (out.new.items ≡ out.old.items ++ seconds_text seconds) }
{
    let Some(seconds) = seconds else {
        return Ok(());
    };
    out.extend_from_slice(b", ")?;
    out.extend_from_slice(Buffer::new().format(seconds).as_bytes())?;
    out.extend_from_slice(b" s")
}

impl<W: Write, C: Clock> InPlace<W, C> {
    /// A line that is shown only where the writer is a terminal. Seconds are counted from now on.
    pub fn new(to: W, clock: C, is_terminal: bool) -> InPlace<W, C>
        ensures { result ≡ record { to = to; is_terminal = is_terminal } }
    {
        let begun = clock.monotonic().ok();
        InPlace {
            to,
            clock,
            begun,
            is_terminal,
            width: 0,
        }
    }

    /// What it is written to.
    pub fn to(&self) -> &W
        ensures { result.now ≡ self.now.to }
    {
        &self.to
    }

    /// Whether that is a terminal.
    pub fn is_terminal(&self) -> bool
        ensures { result ≡ self.now.is_terminal }
    {
        self.is_terminal
    }

    /// How many whole seconds have passed since it was made, if the clock says so.
    pub fn seconds(&self) -> Option<u64> {
        let begun = self.begun?;
        let now = self.clock.monotonic().ok()?;
        let passed = now.checked_sub(begun)?;
        Some(passed.as_secs())
    }

    /// Shows a line that begins with a return to the first column, and is no shorter than the one before, which it hides.
    /// Where the writer is no terminal, nothing is written.
    pub fn show(&mut self, line: &[u8])
        ensures terminal { self.new.is_terminal ≡ self.old.is_terminal }
        ensures hidden { self.old.is_terminal ≡ false → self.new ≡ self.old }
    {
        if !self.is_terminal {
            return;
        }
        self.width = line.len().saturating_sub(1);
        let _ = self.to.write_all(line);
    }

    /// Blanks hide the line, and what is written next begins in the first column. Where the writer is no terminal,
    /// nothing is written.
    pub fn end(&mut self)
        ensures terminal { self.new.is_terminal ≡ self.old.is_terminal }
        ensures hidden { self.old.is_terminal ≡ false → self.new ≡ self.old }
    {
        if !self.is_terminal || self.width == 0 {
            return;
        }
        // No line is longer.
        let blanks = [b' '; 96];
        let _ = self.to.write_all(b"\r");
        let _ = self.to.write_all(&blanks[..self.width.min(96)]);
        let _ = self.to.write_all(b"\r");
        self.width = 0;
    }
}
