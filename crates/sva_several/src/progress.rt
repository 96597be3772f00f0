//! A line on a terminal that says how far a search is: how many moments were looked at, how deep, and how long that took.

ghost use Rattle.std.specs.Prelude.{◌≡◌, ◌++◌, OnOk};
ghost use Rattle.sva_several.specs.Progress.{progress_line};

use crate::in_place::{InPlace, put_seconds};
use itoa::Buffer;
use std::alloc::{AllocError, Global};
use std::io::Write;
use std::marker::Model;
use std::time::Clock;
use sva_search::Watch;

/// Shows in place how far a search is, if that is seen on a terminal. What can't be written is left out, and so are the
/// seconds where the clock can't be read, and the search goes on.
#[derive(Drop)]
pub struct Progress<W, C> {
    shown: InPlace<W, C>,
    line: Vec<u8>,
}

impl<W, C> Model for Progress<W, C> {
    ghost use Rattle.sva_several.specs.Places.{Place};

    ghost Value = { Place W };

    ghost view = { λ progress. progress.shown };
}

/// Appends the line, behind a return to the first column. All numbers only grow while a search goes on, so that each
/// line hides the one before it.
fn put_line(
    out: &mut Vec<u8>,
    moments: usize,
    depth: usize,
    seconds: Option<u64>,
) -> Result<(), AllocError>
    ensures { OnOk result (out.new.items ≡ out.old.items ++ progress_line moments depth seconds) }
{
    out.extend_from_slice(b"\rsvahost: ")?;
    out.extend_from_slice(Buffer::new().format(moments as u64).as_bytes())?;
    out.extend_from_slice(b" moments, ")?;
    out.extend_from_slice(Buffer::new().format(depth as u64).as_bytes())?;
    out.extend_from_slice(b" deep")?;
    put_seconds(out, seconds)
}

impl<W: Write, C: Clock> Progress<W, C> {
    /// A line that is shown only where the writer is a terminal. Seconds are counted from now on.
    pub fn new(alloc: Global, to: W, clock: C, is_terminal: bool) -> Progress<W, C>
        ensures { result ≡ record { to = to; is_terminal = is_terminal } }
    {
        Progress {
            shown: InPlace::new(to, clock, is_terminal),
            line: Vec::new(alloc),
        }
    }

    /// What it is written to.
    pub fn to(&self) -> &W
        ensures { result.now ≡ self.now.to }
    {
        self.shown.to()
    }
}

impl<W: Write, C: Clock> Watch for Progress<W, C> {
    fn tell(&mut self, states: usize, depth: usize) {
        if !self.shown.is_terminal() {
            return;
        }
        let seconds = self.shown.seconds();
        self.line.clear();
        if put_line(&mut self.line, states, depth, seconds).is_ok() {
            self.shown.show(self.line.as_slice());
        }
    }

    fn end(&mut self) {
        self.shown.end();
    }
}
