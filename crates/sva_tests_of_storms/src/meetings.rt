//! Two threads, each of which waits in its first call for the other's.

use std::process::Abort;
use std::sync::atomic::{AtomicU64, Ordering};
use std::thread;
use sva_scenario::{Device, Pager};
use sva_step::Verdict;

/// What two threads note of their first calls.
#[derive(Drop)]
pub(crate) struct Marks {
    one: AtomicU64,
    two: AtomicU64,
    one_met: AtomicU64,
    two_met: AtomicU64,
}

impl Marks {
    /// Nothing was called yet.
    pub(crate) fn new() -> Marks {
        Marks {
            one: AtomicU64::new(0),
            two: AtomicU64::new(0),
            one_met: AtomicU64::new(0),
            two_met: AtomicU64::new(0),
        }
    }

    /// The first one's part.
    pub(crate) fn first(&self, turns: u64) -> Meeting<'_> {
        Meeting {
            begun: &self.one,
            other: &self.two,
            met: &self.one_met,
            turns,
        }
    }

    /// The second one's part.
    pub(crate) fn second(&self, turns: u64) -> Meeting<'_> {
        Meeting {
            begun: &self.two,
            other: &self.one,
            met: &self.two_met,
            turns,
        }
    }

    /// Each call has waited until the other had begun.
    pub(crate) fn have_met<R: Abort>(&self, rt: &R) {
        assert!(rt; self.one_met.load(Ordering::SeqCst) == 1);
        assert!(rt; self.two_met.load(Ordering::SeqCst) == 1);
    }
}

/// What one of two threads knows of the other's first call.
#[derive(Drop)]
pub(crate) struct Meeting<'a> {
    begun: &'a AtomicU64,
    other: &'a AtomicU64,
    met: &'a AtomicU64,
    turns: u64,
}

impl<'a> Meeting<'a> {
    /// Waits until the other's call has begun, for so many turns, each of which lets other threads run: a thousand times, since on a
    /// busy machine the other may be away for some milliseconds.
    fn meet(&self) {
        self.begun.store(1, Ordering::SeqCst);
        for _ in 0..self.turns {
            if self.other.load(Ordering::SeqCst) > 0 {
                self.met.store(1, Ordering::SeqCst);
                return;
            }
            for _ in 0..1000 {
                thread::yield_now();
            }
        }
    }
}

impl<'a> Device for Meeting<'a> {
    fn touch(&mut self, _frame: u32, _write: bool) {
        self.meet()
    }
}

impl<'a> Pager for Meeting<'a> {
    fn decide(&mut self, _binding: u64, _group: u8, _pages: u32) -> Verdict {
        self.meet();
        Verdict::Success
    }
}
