//! The lines of a report.

ghost use Rattle.std.specs.Prelude.{◌≡◌, ◌+◌, ◌^◌, ◌<◌, ◌≤◌, ◌++◌, ◌∷◌, [], length, decimal, Err, OnErr, OnOk};
ghost use Rattle.sva_step.specs.Texts.{BeginsWith};
ghost use Rattle.sva_grammar.specs.Faults.{line_fault_text};
ghost use Rattle.sva_reports.specs.Report.{audit_bad_text, audit_ok_text, counts_text, steps_text};
ghost use Rattle.sva_grammar.specs.Replies.{ended, reply_text};
ghost use Rattle.sva_streams.specs.Streams.{Holds, Writes, Tells};

use itoa::Buffer;
use std::alloc::AllocError;
use std::io::Write;
use sva_frames::Counts;
use sva_grammar::LineFault;
use sva_step::{Answer, Refusal};
use sva_streams::{DriveFault, Told, write_all};

/// Writes the line of a step: its answer, or its refusal. What stands in `line` is lost. Want of memory comes before
/// anything is written.
pub fn write_reply<W: Write>(
    line: &mut Vec<u8>,
    reply: &Result<Answer, Refusal>,
    writer: &mut Told<W>,
) -> Result<(), DriveFault>
    requires short { length (reply_text reply.now) ≤ 1024 }
    requires calls { writer.old.calls + 1025 < 2 ^ 64 }
    ensures written { Writes (W.contents writer.old.inner) (W.contents writer.new.inner) (ended (reply_text reply.now)) result }
    ensures told { Tells writer.old writer.new result }
    ensures memory { result ≡ Err DriveFault.Memory → writer.new ≡ writer.old }
    ensures calls { writer.new.calls ≤ writer.old.calls + 1025 }
{
    line.clear();
    let put = match reply {
        Ok(answer) => answer.write(line),
        Err(refusal) => refusal.write(line),
    };
    if put.is_err() {
        return Err(DriveFault::Memory);
    }
    end_line(line, writer)
}

/// Writes the line of a line fault.
pub(crate) fn write_fault<W: Write>(
    line: &mut Vec<u8>,
    fault: &LineFault,
    writer: &mut Told<W>,
) -> Result<(), DriveFault>
    requires calls { writer.old.calls + 1025 < 2 ^ 64 }
    ensures written { Writes (W.contents writer.old.inner) (W.contents writer.new.inner) (ended (line_fault_text fault.now)) result }
    ensures told { Tells writer.old writer.new result }
    ensures memory { result ≡ Err DriveFault.Memory → writer.new ≡ writer.old }
    ensures calls { writer.new.calls ≤ writer.old.calls + 1025 }
{
    line.clear();
    if fault.write(line).is_err() {
        return Err(DriveFault::Memory);
    }
    end_line(line, writer)
}

/// Writes the line of a check: `steps K`.
pub(crate) fn write_steps<W: Write>(
    line: &mut Vec<u8>,
    count: usize,
    writer: &mut Told<W>,
) -> Result<(), DriveFault>
    requires calls { writer.old.calls + 1025 < 2 ^ 64 }
    ensures written { Writes (W.contents writer.old.inner) (W.contents writer.new.inner) (ended (steps_text count)) result }
    ensures told { Tells writer.old writer.new result }
    ensures memory { result ≡ Err DriveFault.Memory → writer.new ≡ writer.old }
    ensures calls { writer.new.calls ≤ writer.old.calls + 1025 }
{
    line.clear();
    if put_count(line, "steps ", count as u64).is_err() {
        return Err(DriveFault::Memory);
    }
    end_line(line, writer)
}

/// How many bytes of a report are held back at most, before they are written.
const MOST_HELD: usize = 32_768;

/// Appends the line of a step to what is held back of a report, and writes all of that where it is much. Where memory
/// lacks for the line, what is held back is written.
pub(crate) fn hold_reply<W: Write>(
    held: &mut Vec<u8>,
    reply: &Result<Answer, Refusal>,
    writer: &mut Told<W>,
) -> Result<(), DriveFault>
    requires short { length (reply_text reply.now) ≤ 1024 }
    requires calls { writer.old.calls + length held.old.items + 1025 < 2 ^ 64 }
    ensures held { Holds (W.contents writer.old.inner) (W.contents writer.new.inner) held.old.items held.new.items
        (ended (reply_text reply.now)) result }
    ensures told { Tells writer.old writer.new result }
    ensures calls { OnOk result (writer.new.calls + length held.new.items ≤ writer.old.calls + length held.old.items + 1025) }
{
    let start = held.len();
    if put_reply(held, reply).is_err() {
        held.truncate(start);
        flush(held, writer)?;
        return Err(DriveFault::Memory);
    }
    if held.len() < MOST_HELD {
        return Ok(());
    }
    flush(held, writer)
}

/// Writes what is held back of a report, and the last line behind it, that of the counts. Where memory lacks for that
/// line, the rest is written.
pub(crate) fn write_end<W: Write>(
    held: &mut Vec<u8>,
    counts: &Counts,
    writer: &mut Told<W>,
) -> Result<(), DriveFault>
    requires calls { writer.old.calls + length held.old.items + 1025 < 2 ^ 64 }
    ensures written { Writes (W.contents writer.old.inner) (W.contents writer.new.inner) (held.old.items
        ++ ended (counts_text (record { free = counts.now.free; mapped = counts.now.mapped; withheld = counts.now.withheld }))) result }
    ensures told { Tells writer.old writer.new result }
{
    let start = held.len();
    if put_counts(held, counts).is_err() {
        held.truncate(start);
        flush(held, writer)?;
        return Err(DriveFault::Memory);
    }
    flush(held, writer)
}

/// Writes what is held back.
pub(crate) fn flush<W: Write>(held: &mut Vec<u8>, writer: &mut Told<W>) -> Result<(), DriveFault>
    requires calls { writer.old.calls + length held.old.items < 2 ^ 64 }
    ensures written { Writes (W.contents writer.old.inner) (W.contents writer.new.inner) held.old.items result }
    ensures empty { OnOk result (held.new.items ≡ []) }
    ensures told { Tells writer.old writer.new result }
    ensures calls { writer.new.calls ≤ writer.old.calls + length held.old.items }
{
    write_all(writer, held.as_slice())?;
    held.clear();
    Ok(())
}

/// Writes the lines of an audit that finds nothing wrong: `audit ok`, and `frames N`.
pub fn write_audit<W: Write>(
    line: &mut Vec<u8>,
    frames: u64,
    writer: &mut Told<W>,
) -> Result<(), DriveFault>
    requires calls { writer.old.calls + 1025 < 2 ^ 64 }
    ensures written { Writes (W.contents writer.old.inner) (W.contents writer.new.inner) (audit_ok_text frames) result }
    ensures told { Tells writer.old writer.new result }
    ensures memory { result ≡ Err DriveFault.Memory → writer.new ≡ writer.old }
{
    line.clear();
    if put_count(line, "audit ok\nframes ", frames).is_err() {
        return Err(DriveFault::Memory);
    }
    end_line(line, writer)
}

/// Writes the line of an audit that finds something wrong: `audit bad`.
pub fn write_bad_audit<W: Write>(line: &mut Vec<u8>, writer: &mut Told<W>) -> Result<(), DriveFault>
    requires calls { writer.old.calls + 1025 < 2 ^ 64 }
    ensures written { Writes (W.contents writer.old.inner) (W.contents writer.new.inner) audit_bad_text result }
    ensures told { Tells writer.old writer.new result }
    ensures memory { result ≡ Err DriveFault.Memory → writer.new ≡ writer.old }
{
    line.clear();
    if line.extend_from_slice(b"audit bad").is_err() {
        return Err(DriveFault::Memory);
    }
    end_line(line, writer)
}

/// Appends the line of a step: its answer, or its refusal.
fn put_reply(line: &mut Vec<u8>, reply: &Result<Answer, Refusal>) -> Result<(), AllocError>
    ensures ok { OnOk result (line.new.items ≡ line.old.items ++ ended (reply_text reply.now)) }
    ensures err { OnErr result (BeginsWith line.new.items line.old.items) }
{
    match reply {
        Ok(answer) => answer.write(line)?,
        Err(refusal) => refusal.write(line)?,
    }
    put_end(line)
}

/// Appends the line of the counts: `free X mapped Y withheld Z`.
fn put_counts(line: &mut Vec<u8>, counts: &Counts) -> Result<(), AllocError>
    ensures ok { OnOk result (line.new.items ≡ line.old.items
        ++ ended (counts_text (record { free = counts.now.free; mapped = counts.now.mapped; withheld = counts.now.withheld }))) }
    ensures err { OnErr result (BeginsWith line.new.items line.old.items) }
    ensures short { OnOk result (length line.new.items ≤ length line.old.items + 128) }
{
    put_count(line, "free ", counts.free.into())?;
    put_count(line, " mapped ", counts.mapped.into())?;
    put_count(line, " withheld ", counts.withheld.into())?;
    put_end(line)
}

/// Appends an LF.
fn put_end(line: &mut Vec<u8>) -> Result<(), AllocError>
    ensures ok { OnOk result (line.new.items ≡ line.old.items ++ 10 ∷ []) }
    ensures err { OnErr result (line.new.items ≡ line.old.items) }
{
    match line.push(b'\n') {
        Ok(()) => Ok(()),
        Err(_) => Err(AllocError),
    }
}

/// Appends some words and a number.
fn put_count(line: &mut Vec<u8>, words: &str, count: u64) -> Result<(), AllocError>
    ensures text { OnOk result (line.new.items ≡ line.old.items ++ (words.now ++ decimal count)) }
    ensures err { OnErr result (BeginsWith line.new.items line.old.items) }
    ensures short { OnOk result (length line.new.items ≤ length line.old.items + length words.now + 20) }
{
    line.extend_from_slice(words.as_bytes())?;
    line.extend_from_slice(Buffer::new().format(count).as_bytes())
}

/// Writes what stands in the line, and an LF behind it.
fn end_line<W: Write>(line: &mut Vec<u8>, writer: &mut Told<W>) -> Result<(), DriveFault>
    requires calls { writer.old.calls + length line.old.items + 1 < 2 ^ 64 }
    ensures written { Writes (W.contents writer.old.inner) (W.contents writer.new.inner) (ended line.old.items) result }
    ensures told { Tells writer.old writer.new result }
    ensures memory { result ≡ Err DriveFault.Memory → writer.new ≡ writer.old }
    ensures calls { writer.new.calls ≤ writer.old.calls + length line.old.items + 1 }
{
    if line.push(b'\n').is_err() {
        return Err(DriveFault::Memory);
    }
    write_all(writer, line.as_slice())
}
