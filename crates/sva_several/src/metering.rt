//! How many of several texts were searched, on a terminal.

ghost use Rattle.std.specs.Prelude.{◌≡◌, ◌++◌, OnOk};
ghost use Rattle.sva_several.specs.Metering.{meter_line, share_text};

use crate::in_place::{InPlace, put_seconds};
use std::alloc::{AllocError, Global};
use std::io::Write;
use std::sync::{Mutex, Wait};
use std::time::Clock;
use sva_script_reading::put_number;

/// Counts the texts that were searched. Nothing that is said of them rests on it.
pub trait Meter: Sync {
    /// One more was searched.
    fn count(&self);

    /// No more is searched. Is called once, also where memory lacked, before anything is written of them.
    fn end(&self);
}

/// How many were searched, of how many, and where that is shown.
#[derive(Drop)]
struct Counted<W, C> {
    done: usize,
    all: usize,
    shown: InPlace<W, C>,
    line: Vec<u8>,
}

/// Appends how many were searched, of how many.
fn put_share(out: &mut Vec<u8>, done: usize, all: usize) -> Result<(), AllocError>
    ensures { OnOk result (out.new.items ≡ out.old.items ++ share_text done all) }
{
    put_number(out, done as u64)?;
    out.extend_from_slice(b" of ")?;
    put_number(out, all as u64)
}

/// Appends the line, behind a return to the first column. Its numbers only grow, so that each line hides the one before.
fn put_line(
    out: &mut Vec<u8>,
    done: usize,
    all: usize,
    seconds: Option<u64>,
) -> Result<(), AllocError>
    ensures { OnOk result (out.new.items ≡ out.old.items ++ meter_line done all seconds) }
{
    out.extend_from_slice(b"\rsvahost: ")?;
    put_share(out, done, all)?;
    out.extend_from_slice(b" files searched")?;
    put_seconds(out, seconds)
}

impl<W: Write, C: Clock> Counted<W, C> {
    /// One more was searched.
    fn count(&mut self) {
        self.done = self.done.saturating_add(1);
        let seconds = self.shown.seconds();
        self.line.clear();
        if put_line(&mut self.line, self.done, self.all, seconds).is_ok() {
            self.shown.show(self.line.as_slice());
        }
    }
}

/// Shows in place how many texts were searched, where that is seen on a terminal.
#[derive(Drop)]
pub struct Searched<'a, X, W, C> {
    rt: &'a X,
    is_terminal: bool,
    counted: Mutex<Counted<W, C>>,
}

impl<'a, X: Wait + Sync, W: Write + Send + Drop, C: Clock + Send + Drop> Searched<'a, X, W, C> {
    /// A count from 0 to so many. Seconds are counted from now on.
    pub fn new(
        rt: &'a X,
        alloc: Global,
        all: usize,
        to: W,
        clock: C,
        is_terminal: bool,
    ) -> Searched<'a, X, W, C> {
        Searched {
            rt,
            is_terminal,
            counted: Mutex::new(Counted {
                done: 0,
                all,
                shown: InPlace::new(to, clock, is_terminal),
                line: Vec::new(alloc),
            }),
        }
    }
}

impl<'a, X: Wait + Sync, W: Write + Send + Drop, C: Clock + Send + Drop> Meter
    for Searched<'a, X, W, C> {
    fn count(&self) {
        if self.is_terminal {
            self.counted.lock(self.rt).count();
        }
    }

    fn end(&self) {
        if self.is_terminal {
            self.counted.lock(self.rt).shown.end();
        }
    }
}
