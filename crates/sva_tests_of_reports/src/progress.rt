//! The line that says on a terminal how far a search is. `scripts/commands` tries it on one.

use crate::streams::{Slow, is_front};
use std::cell::Cell;
use std::io::{self, Write};
use std::time::{Clock, Duration};
use sva_search::Watch;
use sva_several::Progress;

/// Two lines, and what hides the second.
const SHOWN: &str =
    "\rsvahost: 2047 moments, 10 deep, 7 s\rsvahost: 12288 moments, 17 deep, 14 s\r                                     \r";

/// The same where no clock can be read.
const UNTIMED: &str =
    "\rsvahost: 2047 moments, 10 deep\rsvahost: 12288 moments, 17 deep\r                               \r";

/// A clock that stands so many seconds later each time that it is read.
#[derive(Drop)]
struct Steps {
    seconds: u64,
    read: Cell<u64>,
}

fn by_seven() -> Steps {
    Steps {
        seconds: 7,
        read: Cell::new(0),
    }
}

impl Clock for Steps {
    fn monotonic(&self) -> io::Result<Duration> {
        let now = self.read.get();
        self.read.set(now.saturating_add(self.seconds));
        Ok(Duration::from_secs(now))
    }

    fn since_1970(&self) -> io::Result<Duration> {
        self.monotonic()
    }
}

/// A clock that can't be read.
#[derive(Drop)]
struct Stopped;

impl Clock for Stopped {
    fn monotonic(&self) -> io::Result<Duration> {
        Err(io::Error::from(io::ErrorKind::Unsupported))
    }

    fn since_1970(&self) -> io::Result<Duration> {
        self.monotonic()
    }
}

/// Tells of two states, and twice that the search is over.
fn tell_all<W: Write, C: Clock>(progress: &mut Progress<W, C>) {
    progress.tell(2047, 10);
    progress.tell(12_288, 17);
    progress.end();
    progress.end();
}

#[test]
fn shows_a_line_in_place_and_hides_it(rt: HostRuntime) {
    let mut shown = Progress::new(rt.alloc(), Vec::new(rt.alloc()), by_seven(), true);
    tell_all(&mut shown);
    assert!(rt; shown.to().as_slice() == SHOWN.as_bytes());
}

#[test]
fn tells_no_seconds_without_a_clock(rt: HostRuntime) {
    let mut shown = Progress::new(rt.alloc(), Vec::new(rt.alloc()), Stopped, true);
    tell_all(&mut shown);
    assert!(rt; shown.to().as_slice() == UNTIMED.as_bytes());
}

/// It counts from when it was made, whatever the clock said then; none is told where that went back.
#[test]
fn counts_from_its_beginning(rt: HostRuntime) {
    let late = Steps {
        seconds: 3,
        read: Cell::new(1_000_000),
    };
    let mut shown = Progress::new(rt.alloc(), Vec::new(rt.alloc()), &late, true);
    shown.tell(1025, 1);
    late.read.set(5);
    shown.tell(2049, 2);
    let wanted = b"\rsvahost: 1025 moments, 1 deep, 3 s\rsvahost: 2049 moments, 2 deep";
    assert!(rt; shown.to().as_slice() == wanted.as_slice());
}

/// The longest line has 88 columns. It is hidden whole too.
#[test]
fn hides_the_longest_line(rt: HostRuntime) {
    let ages = Steps {
        seconds: u64::MAX,
        read: Cell::new(0),
    };
    let mut shown = Progress::new(rt.alloc(), Vec::new(rt.alloc()), ages, true);
    shown.tell(usize::MAX, usize::MAX);
    assert_eq!(rt; shown.to().len(), 89);
    shown.end();
    assert_eq!(rt; shown.to().len(), 179);
}

#[test]
fn shows_nothing_but_on_a_terminal(rt: HostRuntime) {
    let mut hidden = Progress::new(rt.alloc(), Vec::new(rt.alloc()), by_seven(), false);
    tell_all(&mut hidden);
    assert!(rt; hidden.to().is_empty());
}

/// A terminal that takes nothing any more is no fault of the search.
#[test]
fn ignores_what_is_not_taken(rt: HostRuntime) {
    for most in 0..64 {
        let mut cut = Progress::new(rt.alloc(), Slow::new(most), by_seven(), true);
        tell_all(&mut cut);
        assert!(rt;
            cut.to().len == most && is_front(&cut.to().taken, SHOWN.as_bytes(), most),
            "{most}"
        );
    }
}
