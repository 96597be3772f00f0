//! Readers and writers: what is read of an input, what is written of a text, and where a call fails.

use std::alloc::Global;
use std::io;
use std::io::{ErrorKind, Read, Write};
use std::test::Fail;
use sva_scenario::{DriveFault, Told, read_all, write_all};

/// Gives a byte a call, so many times, and fails then.
#[derive(Drop)]
pub(crate) struct Broken {
    left: u64,
}

impl Broken {
    pub(crate) fn new(left: u64) -> Self {
        Broken { left }
    }
}

impl Read for Broken {
    fn read(&mut self, piece: &mut [u8]) -> io::Result<usize> {
        if self.left == 0 || piece.is_empty() {
            return Err(ErrorKind::Other.into());
        }
        self.left -= 1;
        piece[0] = b'#';
        Ok(1)
    }
}

/// Ends a reading of so many bytes, one a call, in a fault, and with so many calls and failures?
fn fails_to_read(alloc: Global, left: u64, calls: u64, failures: u64) -> bool {
    let mut broken = Told::new(Broken::new(left));
    let fault = read_all(alloc, &mut broken).err();
    fault == Some(DriveFault::Read) && (broken.calls(), broken.failures()) == (calls, failures)
}

#[test]
fn reads_to_the_end(rt: HostRuntime) -> Result<(), Fail> {
    let alloc = rt.alloc();
    let input = vec![in alloc; b'#'; 1_048_579]?;
    let mut reader = Told::new(input.as_slice());
    let kept = read_all(alloc, &mut reader)?;
    assert_eq!(rt; (kept.len(), reader.inner().len()), (1_048_577, 0));
    // 256 calls of 4096 bytes, one of 3, and the one that meets the end.
    assert_eq!(rt; (reader.calls(), reader.failures()), (258, 0));
    assert!(rt; fails_to_read(alloc, 5, 6, 1));
    assert!(rt; fails_to_read(alloc, u64::MAX, 2_097_152, 0));
    Ok(())
}

/// Takes a byte a call, so many times, and fails then.
#[derive(Drop)]
pub(crate) struct Slow {
    pub(crate) taken: [u8; 64],
    pub(crate) len: usize,
    most: usize,
}

impl Slow {
    pub(crate) fn new(most: usize) -> Self {
        Slow {
            taken: [0; 64],
            len: 0,
            most,
        }
    }
}

impl Write for Slow {
    fn write(&mut self, bytes: &[u8]) -> io::Result<usize> {
        let Some(first) = bytes.first() else {
            return Ok(0);
        };
        if self.len >= self.most || self.len >= self.taken.len() {
            return Err(ErrorKind::Other.into());
        }
        self.taken[self.len] = *first;
        self.len += 1;
        Ok(1)
    }

    fn flush(&mut self) -> io::Result<()> {
        Ok(())
    }
}

/// Do a text's first bytes, so many, stand in front of what was taken?
pub(crate) fn is_front(taken: &[u8], text: &[u8], len: usize) -> bool {
    if len > taken.len() || len > text.len() {
        return false;
    }
    let (front, want) = (&taken[..len], &text[..len]);
    front == want
}

/// Did the call behind the first bytes of a text, so many, fail, and none but it, and were these bytes taken?
pub(crate) fn fails_behind(slow: &Told<Slow>, most: usize, text: &[u8]) -> bool {
    let calls = (most as u64).wrapping_add(1);
    slow.calls() == calls
        && slow.failures() == 1
        && slow.inner().len == most
        && is_front(&slow.inner().taken, text, most)
}

static REPORT: &str = "space 0\nframe 0\nfree 0\nframe 0\nfree 3 mapped 1 withheld 0\n";

/// Is a report of 58 bytes written as far as a writer takes it, which takes fewer?
fn writes_front(most: usize) -> bool {
    let mut slow = Told::new(Slow::new(most));
    let result = write_all(&mut slow, REPORT.as_bytes());
    result == Err(DriveFault::Write) && fails_behind(&slow, most, REPORT.as_bytes())
}

fn writes_whole() -> bool {
    let mut slow = Told::new(Slow::new(58));
    let result = write_all(&mut slow, REPORT.as_bytes());
    result == Ok(()) && is_front(&slow.inner().taken, REPORT.as_bytes(), 58)
}

#[test]
fn writes_a_front(rt: HostRuntime) {
    assert!(rt; REPORT.len() == 58);
    for most in 0..58 {
        assert!(rt; writes_front(most), "{most}");
    }
    assert!(rt; writes_whole());
}
