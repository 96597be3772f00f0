//! Whole reports: of runs, of inputs that are no scenario, and where a reader, a writer or memory fails. More runs, with the reports
//! that were worked out for them, are those of the program.

use crate::streams::{Broken, Slow, fails_behind, is_front};
use std::alloc::Global;
use std::io;
use std::io::{Read, Write};
use std::test::Fail;
use sva_scenario::{DriveFault, Outcome, Told, check, drive, read_scenario, report_audit};

/// How a run over a reader and a writer ended, and these behind it.
#[derive(Drop)]
struct Ended<R, W> {
    result: Result<Outcome, DriveFault>,
    reader: Told<R>,
    writer: Told<W>,
}

fn driven<R: Read + Drop, W: Write + Drop>(alloc: Global, reader: R, writer: W) -> Ended<R, W> {
    let mut reader = Told::new(reader);
    let mut writer = Told::new(writer);
    let result = drive(alloc, &mut reader, &mut writer);
    Ended {
        result,
        reader,
        writer,
    }
}

fn checked<R: Read + Drop, W: Write + Drop>(alloc: Global, reader: R, writer: W) -> Ended<R, W> {
    let mut reader = Told::new(reader);
    let mut writer = Told::new(writer);
    let result = check(alloc, &mut reader, &mut writer);
    Ended {
        result,
        reader,
        writer,
    }
}

/// Was all of the input read, and this written?
fn is_whole(reader: &Told<&[u8]>, writer: &Told<Vec<u8>>, want: &[u8]) -> bool {
    writer.inner().as_slice() == want && reader.inner().is_empty()
}

static FIRST: &str = "config 1 4 1\nspace\nmap 0 16 w\nunmap 0 16\nmap 0 16 r\n";

static FIRST_REPORT: &str = "space 0\nframe 0\nfree 0\nframe 0\nfree 3 mapped 1 withheld 0\n";

/// Did all calls of a reader that never ends, a byte a call, end in a fault, with nothing written?
fn has_read_no_further(ended: &Ended<Broken, Slow>) -> bool {
    ended.result == Err(DriveFault::Read)
        && (ended.reader.calls(), ended.reader.failures()) == (2_097_152, 0)
        && is_untouched(&ended.writer)
}

/// Does reading a scenario to be played end so?
fn hands_out_no_further(alloc: Global) -> bool {
    let mut reader = Told::new(Broken::new(u64::MAX));
    let mut writer = Told::new(Slow::new(64));
    let fault = read_scenario(alloc, &mut reader, &mut writer).err();
    fault == Some(DriveFault::Read)
        && (reader.calls(), reader.failures()) == (2_097_152, 0)
        && is_untouched(&writer)
}

#[test]
fn stops_at_a_reader_without_end(rt: HostRuntime) {
    let alloc = rt.alloc();
    let run = driven(alloc, Broken::new(u64::MAX), Slow::new(64));
    assert!(rt; has_read_no_further(&run));
    let test = checked(alloc, Broken::new(u64::MAX), Slow::new(64));
    assert!(rt; has_read_no_further(&test));
    assert!(rt; hands_out_no_further(alloc));
}

/// Gives its bytes one a call.
#[derive(Drop)]
struct Drip<'a> {
    left: &'a [u8],
}

impl<'a> Read for Drip<'a> {
    fn read(&mut self, piece: &mut [u8]) -> io::Result<usize> {
        if self.left.is_empty() || piece.is_empty() {
            return Ok(0);
        }
        piece[0] = self.left[0];
        self.left = &self.left[1..];
        Ok(1)
    }
}

/// Was a report of 58 bytes written in as many calls, of which none failed?
fn is_written(writer: &Told<Slow>) -> bool {
    (writer.calls(), writer.failures()) == (58, 0)
        && is_front(&writer.inner().taken, FIRST_REPORT.as_bytes(), 58)
}

#[test]
fn reads_byte_by_byte(rt: HostRuntime) {
    let drip = Drip {
        left: FIRST.as_bytes(),
    };
    let ended = driven(rt.alloc(), drip, Slow::new(64));
    assert!(rt; ended.result == Ok(Outcome::Done) && is_written(&ended.writer));
    assert!(rt; ended.reader.calls() == FIRST.len() as u64 + 1);
}

/// Ends a check in a fault where the sixth call of the reader fails, with nothing written?
fn check_fails_to_read(alloc: Global) -> bool {
    let ended = checked(alloc, Broken::new(5), Slow::new(64));
    ended.result == Err(DriveFault::Read)
        && (ended.reader.failures(), ended.writer.calls()) == (1, 0)
}

/// Ends a check in a fault where the writer fails behind six bytes?
fn check_fails_to_write(alloc: Global) -> bool {
    let ended = checked(alloc, FIRST.as_bytes(), Slow::new(6));
    ended.result == Err(DriveFault::Write)
        && (ended.reader.failures(), ended.writer.failures()) == (0, 1)
        && is_front(&ended.writer.inner().taken, b"steps ", 6)
}

#[test]
fn stops_a_check_at_a_fault(rt: HostRuntime) {
    assert!(rt; check_fails_to_read(rt.alloc()));
    assert!(rt; check_fails_to_write(rt.alloc()));
}

fn fails_to_read(alloc: Global) -> bool {
    let ended = driven(alloc, Broken::new(5), Slow::new(64));
    ended.result == Err(DriveFault::Read)
        && (ended.reader.calls(), ended.reader.failures()) == (6, 1)
        && is_untouched(&ended.writer)
}

fn is_untouched(writer: &Told<Slow>) -> bool {
    (writer.calls(), writer.failures(), writer.inner().len) == (0, 0, 0)
}

#[test]
fn stops_at_a_read_fault(rt: HostRuntime) {
    assert!(rt; fails_to_read(rt.alloc()));
}

/// Ends a run in a fault where the writer takes so many bytes, and are these those of the report?
fn fails_to_write(alloc: Global, most: usize) -> bool {
    let ended = driven(alloc, FIRST.as_bytes(), Slow::new(most));
    ended.result == Err(DriveFault::Write)
        && fails_behind(&ended.writer, most, FIRST_REPORT.as_bytes())
}

/// Is the report written whole where the writer takes so many bytes?
fn writes_whole(alloc: Global, most: usize) -> bool {
    let ended = driven(alloc, FIRST.as_bytes(), Slow::new(most));
    ended.result == Ok(Outcome::Done) && is_written(&ended.writer)
}

#[test]
fn stops_at_a_write_fault(rt: HostRuntime) {
    assert!(rt; FIRST_REPORT.len() == 58);
    for most in 0..58 {
        assert!(rt; fails_to_write(rt.alloc(), most), "{most}");
    }
    assert!(rt; writes_whole(rt.alloc(), 58));
}

/// Takes nothing.
#[derive(Drop)]
struct Full;

impl Write for Full {
    fn write(&mut self, _bytes: &[u8]) -> io::Result<usize> {
        Ok(0)
    }

    fn flush(&mut self) -> io::Result<()> {
        Ok(())
    }
}

#[test]
fn stops_where_nothing_is_taken(rt: HostRuntime) {
    let ended = driven(rt.alloc(), FIRST.as_bytes(), Full);
    assert!(rt; ended.result == Err(DriveFault::Write));
    assert!(rt; (ended.writer.calls(), ended.writer.failures()) == (1, 1));
}

/// Is a part of the report written, and did no call fail?
fn is_cut(reader: &Told<&[u8]>, writer: &Told<Slow>) -> bool {
    let len = writer.inner().len;
    (reader.failures(), writer.failures()) == (0, 0)
        && is_front(&writer.inner().taken, FIRST_REPORT.as_bytes(), len)
}

/// With ample memory the report is whole. Where an allocation fails, a prefix of it is written, and nothing failed.
#[test]
fn stops_where_memory_lacks(rt: HostRuntime) {
    let ended = driven(rt.alloc(), FIRST.as_bytes(), Slow::new(64));
    assert!(rt; is_cut(&ended.reader, &ended.writer));
    if ended.result == Err(DriveFault::Memory) {
        // No other allocation fails, so that a second run has ample memory.
        assert!(rt; writes_whole(rt.alloc(), 64));
    } else {
        assert!(rt; ended.result == Ok(Outcome::Done) && ended.writer.inner().len == 58);
    }
}

/// Does a text hand out a scenario of so many steps, or none, and is this written of it?
fn hands_out(
    alloc: Global,
    text: &str,
    steps: Option<usize>,
    want: &str,
) -> Result<bool, DriveFault> {
    let mut reader = Told::new(text.as_bytes());
    let mut writer = Told::new(Vec::new(alloc));
    let found = read_scenario(alloc, &mut reader, &mut writer)?;
    let len = found.map(|scenario| scenario.steps.len());
    Ok(len == steps && is_whole(&reader, &writer, want.as_bytes()))
}

/// Texts, how many steps the scenario has that is handed out, and what is written.
static SCENARIOS: [(&str, Option<usize>, &str); 4] = [
    ("config 1 4 1\nspace\nmap 0 16 w\n", Some(2), ""),
    ("config 1 4097 1\nspace\n", None, "refused 1 BadConfig\n"),
    ("config 1 4 1\nspase\n", None, "line 2 UnknownStep\n"),
    ("", None, "line 1 NoConfig\n"),
];

/// A scenario that can be played is handed out, and nothing is written; of another its fault is.
#[test]
fn hands_out_what_can_be_played(rt: HostRuntime) -> Result<(), Fail> {
    for (text, steps, want) in &SCENARIOS {
        assert!(rt; hands_out(rt.alloc(), text, *steps, want)?, "{text}");
    }
    Ok(())
}

/// Is this written of what an audit found, and does the storm end so?
fn tells_of_audit(
    alloc: Global,
    found: Option<u64>,
    end: Outcome,
    want: &str,
) -> Result<bool, DriveFault> {
    let mut writer = Told::new(Vec::new(alloc));
    let ended = report_audit(alloc, found, &mut writer)?;
    Ok(ended == end && writer.inner().as_slice() == want.as_bytes())
}

/// What is written of what an audit says.
#[test]
fn reports_audits(rt: HostRuntime) -> Result<(), Fail> {
    let alloc = rt.alloc();
    assert!(rt; tells_of_audit(alloc, Some(4), Outcome::Done, "audit ok\nframes 4\n")?);
    assert!(rt; tells_of_audit(alloc, None, Outcome::Faulted, "audit bad\n")?);
    Ok(())
}
