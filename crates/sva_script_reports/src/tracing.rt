//! The trace of a script: a row for each step, as it comes.

ghost use Rattle.std.specs.Prelude.{◌≡◌, ◌+◌, ◌++◌, ◌<◌, ◌⊎◌, ◌≤◌, ◌^◌, [], false, is_some, length, map, true};
ghost use Rattle.std.specs.Prelude.{IfSome, None, OnOk};
ghost use Rattle.std.specs.Io.KnownBytes.{IsAtEnd};
ghost use Rattle.sva_streams.specs.declared.reading.TheConstants.{MOST_TURNS};
ghost use Rattle.sva_grammar.specs.Grammar.{config_read};
ghost use Rattle.sva_streams.specs.Streams.{IsNew, Tells, Writes};
ghost use Rattle.sva_script_reading.specs.Said.{Prints};
ghost use Rattle.sva_script_reading.specs.Begins.{config_by, joined_words};
ghost use Rattle.sva_script_reports.specs.Traces.{NoEnd, Traces, TracesLine, TracesPiece, end_of, end_outcome, fresh, trace_config, trace_of};
ghost use Rattle.sva_script_reports.specs.Traces.{trace_rest, trace_words};

use crate::rows::{Style, put_end, put_step};
use std::alloc::{AllocError, Global};
use std::io::{Read, Write};
use std::marker::Model;
use sva_script::{Names, Stop, Wanted, at_word, split};
use sva_script_reading::{config_of, end_in, put_bad_config, put_wrong};
use sva_script_runs::{Came, Run, Taken};
use sva_snapshot::Explains;
use sva_step::Refusal;
use sva_streams::{DriveFault, MOST_TURNS, Outcome, Told, write_all};

/// A trace that goes on: the run, once there is a config, and what a line is read with.
#[derive(Drop)]
struct Tracer {
    run: Option<Run>,
    plain: Vec<u8>,
    expected: Vec<u8>,
    taken: Taken,
    style: Style,
    /// How many lines were taken.
    lines: u64,
    /// Whether no line may follow: that of the end was taken, or a config out of its limits.
    has_ended: bool,
    has_faulted: bool,
}

impl Model for Tracer {
    ghost use Rattle.sva_script_reports.specs.Traces.{Tracer as TracerSeen};

    ghost Value = { TracerSeen };

    ghost view = { λ tracer. record {
      style = tracer.style;
      lines = tracer.lines;
      tracing = record { run = tracer.run; has_ended = tracer.has_ended; has_faulted = tracer.has_faulted };
    } };
}

/// Reads a script line by line, and writes for each step a row as it comes: the number of the line, the step, its
/// answer, and the messages that it delivered and sent; and behind the row, where that is wanted, what holds the step
/// back, as `E` explains it. A line that is wrong is told in its place, and changes nothing. At the end of the input
/// stand the counts. `Faulted` tells that a line was wrong.
pub fn trace<E: Explains, R: Read, W: Write>(
    alloc: Global,
    style: Style,
    reader: &mut Told<R>,
    writer: &mut Told<W>,
) -> Result<Outcome, DriveFault>
    requires reader { IsNew reader.old }
    requires writer { IsNew writer.old }
    ensures printed { IfSome (R.remaining reader.old.inner)
        (λ input. Prints (trace_of E.explained style input) (W.contents writer.old.inner) (W.contents writer.new.inner) result) }
    ensures end { OnOk result ((reader.new.failures ≡ 0) × IsAtEnd (R.remaining reader.new.inner) × (writer.new.failures ≡ 0)) }
    ensures read { result ≡ Err DriveFault.Read → (writer.new.failures ≡ 0)
        × ((reader.new.failures ≡ 1) ⊎ ((reader.new.failures ≡ 0) × (reader.new.calls ≡ MOST_TURNS))) }
    ensures write { result ≡ Err DriveFault.Write → (reader.new.failures ≡ 0) × (writer.new.failures ≡ 1) }
    ensures memory { result ≡ Err DriveFault.Memory → (reader.new.failures ≡ 0) × (writer.new.failures ≡ 0) }
    ensures asked { 0 < reader.new.calls }
    ensures turns { reader.new.calls ≤ MOST_TURNS }
{
    let mut tracer = Tracer::new(alloc, style);
    tracer.run::<E, R, W>(alloc, reader, writer)
}

/// Writes the rows of a piece. Where the number of calls might not fit 64 bits any more, nothing is written: `Memory`.
fn write_piece<W: Write>(writer: &mut Told<W>, bytes: &[u8]) -> Result<(), DriveFault>
    ensures written { Writes (W.contents writer.old.inner) (W.contents writer.new.inner) bytes.now result }
    ensures told { Tells writer.old writer.new result }
{
    if writer.calls().checked_add(bytes.len() as u64).is_none() {
        return Err(DriveFault::Memory);
    }
    write_all(writer, bytes)
}

impl Tracer {
    /// A trace in which nothing was read.
    fn new(alloc: Global, style: Style) -> Self
        ensures { result ≡ record { style = style; lines = 0; tracing = fresh } }
    {
        Tracer {
            run: None,
            plain: Vec::new(alloc),
            expected: Vec::new(alloc),
            taken: Taken::new(),
            style,
            lines: 0,
            has_ended: false,
            has_faulted: false,
        }
    }

    /// Reads line by line, and writes the rows of each piece as they come.
    fn run<E: Explains, R: Read, W: Write>(
        &mut self,
        alloc: Global,
        reader: &mut Told<R>,
        writer: &mut Told<W>,
    ) -> Result<Outcome, DriveFault>
        requires fresh { self.old ≡ record { style = self.old.style; lines = 0; tracing = fresh } }
        requires reader { IsNew reader.old }
        requires writer { IsNew writer.old }
        ensures printed { IfSome (R.remaining reader.old.inner)
            (λ input. Prints (trace_of E.explained self.old.style input) (W.contents writer.old.inner) (W.contents writer.new.inner) result) }
        ensures end { OnOk result ((reader.new.failures ≡ 0) × IsAtEnd (R.remaining reader.new.inner) × (writer.new.failures ≡ 0)) }
        ensures read { result ≡ Err DriveFault.Read → (writer.new.failures ≡ 0)
            × ((reader.new.failures ≡ 1) ⊎ ((reader.new.failures ≡ 0) × (reader.new.calls ≡ MOST_TURNS))) }
        ensures write { result ≡ Err DriveFault.Write → (reader.new.failures ≡ 0) × (writer.new.failures ≡ 1) }
        ensures memory { result ≡ Err DriveFault.Memory → (reader.new.failures ≡ 0) × (writer.new.failures ≡ 0) }
        ensures asked { 0 < reader.new.calls }
        ensures turns { reader.new.calls ≤ MOST_TURNS }
    {
        let mut held: Vec<u8> = Vec::new(alloc);
        let mut out: Vec<u8> = Vec::new(alloc);
        let mut piece = [0u8; 4096];
        for _turn in 0..MOST_TURNS {
            let Some(count) = reader.read_once(&mut piece) else {
                return Err(DriveFault::Read);
            };
            out.clear();
            if count == 0 {
                if self.take_end::<E>(alloc, &held, &mut out).is_err() {
                    return Err(DriveFault::Memory);
                }
                write_piece(writer, out.as_slice())?;
                return Ok(self.outcome());
            }
            if self
                .take_piece::<E>(alloc, &piece[..count], &mut held, &mut out)
                .is_err()
            {
                return Err(DriveFault::Memory);
            }
            write_piece(writer, out.as_slice())?;
        }
        Err(DriveFault::Read)
    }

    /// How the trace ended.
    fn outcome(&self) -> Outcome
        ensures { result ≡ end_outcome self.now.tracing self.now.tracing.run }
    {
        if self.has_faulted || self.run.is_none() {
            Outcome::Faulted
        } else {
            Outcome::Done
        }
    }

    /// Takes the lines that end in a piece of the input, and keeps what hasn't ended in `held`.
    fn take_piece<E: Explains>(
        &mut self,
        alloc: Global,
        piece: &[u8],
        held: &mut Vec<u8>,
        out: &mut Vec<u8>,
    ) -> Result<(), AllocError>
        requires held { NoEnd held.old.items }
        requires few { self.old.lines + length piece.now < 2 ^ 64 }
        ensures held { OnOk result (NoEnd held.new.items) }
        ensures few { OnOk result (self.new.lines ≤ self.old.lines + length piece.now) }
        ensures traced { OnOk result (TracesPiece E.explained self.old held.old.items piece.now self.new held.new.items out.old.items out.new.items) }
    {
        let mut words = Vec::new(alloc);
        let mut rest = piece;
        while let Some(end) = end_in(rest) {
            self.take_held::<E>(alloc, held, &rest[..end], &mut words, out)?;
            rest = &rest[end + 1..];
        }
        held.extend_from_slice(rest)
    }

    /// Takes the line that begins with what is held, and ends with a text behind it. Nothing is held then.
    fn take_held<'p, E: Explains>(
        &mut self,
        alloc: Global,
        held: &mut Vec<u8>,
        text: &'p [u8],
        words: &mut Vec<&'p [u8]>,
        out: &mut Vec<u8>,
    ) -> Result<(), AllocError>
        requires { self.old.lines + 1 < 2 ^ 64 }
        ensures traced { OnOk result
            (TracesLine E.explained self.old (held.old.items ++ text.now) self.new out.old.items out.new.items) }
        ensures held { OnOk result (held.new.items ≡ []) }
    {
        if self.run.is_none() {
            return self.take_joined::<E>(alloc, held, text, out);
        }
        if held.is_empty() {
            return self.take_within::<E>(alloc, text, words, out);
        }
        self.take_joined::<E>(alloc, held, text, out)
    }

    /// Takes the line that what is held and a text behind it write together. Nothing is held then.
    fn take_joined<E: Explains>(
        &mut self,
        alloc: Global,
        held: &mut Vec<u8>,
        text: &[u8],
        out: &mut Vec<u8>,
    ) -> Result<(), AllocError>
        requires { self.old.lines + 1 < 2 ^ 64 }
        ensures traced { OnOk result
            (TracesLine E.explained self.old (held.old.items ++ text.now) self.new out.old.items out.new.items) }
        ensures held { OnOk result (held.new.items ≡ []) }
    {
        held.extend_from_slice(text)?;
        self.take_line::<E>(alloc, held.as_slice(), out)?;
        held.clear();
        Ok(())
    }

    /// Takes a line behind the config that stands within a piece. Its words take the place of those in `words`.
    /// `take_line` isn't called for it, since what opens a run takes much of the stack.
    fn take_within<'p, E: Explains>(
        &mut self,
        alloc: Global,
        line: &'p [u8],
        words: &mut Vec<&'p [u8]>,
        out: &mut Vec<u8>,
    ) -> Result<(), AllocError>
        requires few { self.old.lines + 1 < 2 ^ 64 }
        requires run { is_some self.old.tracing.run ≡ true }
        ensures { OnOk result (TracesLine E.explained self.old line.now self.new out.old.items out.new.items) }
    {
        self.lines += 1;
        split(line, words)?;
        if words.is_empty() {
            Ok(())
        } else {
            self.take_step::<E>(alloc, words.as_slice(), out)
        }
    }

    /// Takes the last line, where it hasn't ended, and appends what stands at the end.
    fn take_end<E: Explains>(
        &mut self,
        alloc: Global,
        held: &[u8],
        out: &mut Vec<u8>,
    ) -> Result<(), AllocError>
        requires held { NoEnd held.now }
        requires few { self.old.lines + 2 < 2 ^ 64 }
        ensures said { OnOk result (out.new.items ≡ out.old.items ++ (trace_rest E.explained self.old held.now).text) }
        ensures outcome { OnOk result (end_outcome self.new.tracing self.new.tracing.run ≡ (trace_rest E.explained self.old held.now).outcome) }
    {
        if held.is_empty() {
            return self.put_end(alloc, out);
        }
        self.take_line::<E>(alloc, held, out)?;
        self.put_end(alloc, out)
    }

    /// Takes a line.
    fn take_line<E: Explains>(
        &mut self,
        alloc: Global,
        line: &[u8],
        out: &mut Vec<u8>,
    ) -> Result<(), AllocError>
        requires { self.old.lines + 1 < 2 ^ 64 }
        ensures { OnOk result (TracesLine E.explained self.old line.now self.new out.old.items out.new.items) }
    {
        self.lines += 1;
        let mut words = Vec::new(alloc);
        split(line, &mut words)?;
        if words.is_empty() {
            Ok(())
        } else {
            self.take_words::<E>(alloc, words.as_slice(), out)
        }
    }

    /// Takes the words of a line: the first are those of the config.
    fn take_words<E: Explains>(
        &mut self,
        alloc: Global,
        words: &[&[u8]],
        out: &mut Vec<u8>,
    ) -> Result<(), AllocError>
        ensures { OnOk result (Traces self.old (trace_words E.explained self.old.style self.old.tracing self.old.lines (map (λ word. word.now) words.now)
            self.old.tracing.run) self.new out.old.items out.new.items) }
    {
        match &self.run {
            None if self.has_ended => Ok(()),
            None => self.take_config(alloc, words, out),
            Some(_) => self.take_step::<E>(alloc, words, out),
        }
    }

    /// Takes the words of a line behind the config.
    fn take_step<E: Explains>(
        &mut self,
        alloc: Global,
        words: &[&[u8]],
        out: &mut Vec<u8>,
    ) -> Result<(), AllocError>
        requires { is_some self.old.tracing.run ≡ true }
        ensures { OnOk result (Traces self.old (trace_words E.explained self.old.style self.old.tracing self.old.lines (map (λ word. word.now) words.now)
            self.old.tracing.run) self.new out.old.items out.new.items) }
    {
        let line = self.lines;
        match &mut self.run {
            None => unreachable!(),
            Some(run) if self.has_ended => {
                self.has_faulted = true;
                put_wrong(out, &at_word(0, Wanted::NoLine), line, words, run.names())
            }
            Some(run) => match run.take(
                alloc,
                line,
                words,
                &mut self.plain,
                &mut self.expected,
                &mut self.taken,
            ) {
                Ok(Came::Step) => put_step::<E>(
                    alloc,
                    out,
                    self.style,
                    line,
                    self.plain.as_slice(),
                    run,
                    &self.taken,
                ),
                Ok(Came::End) => {
                    self.has_ended = true;
                    Ok(())
                }
                Err(Stop::Wrong(wrong)) => {
                    self.has_faulted = true;
                    put_wrong(out, &wrong, line, words, run.names())
                }
                Err(Stop::Memory) => Err(AllocError),
            },
        }
    }

    /// Takes the words of the first line that says something.
    fn take_config(
        &mut self,
        alloc: Global,
        words: &[&[u8]],
        out: &mut Vec<u8>,
    ) -> Result<(), AllocError>
        requires open { self.old.tracing.has_ended ≡ false }
        requires none { self.old.tracing.run ≡ None }
        ensures { OnOk result (Traces self.old (trace_config self.old.tracing (config_by self.old.lines (map (λ word. word.now) words.now)
            (config_read (joined_words (map (λ word. word.now) words.now))))) self.new out.old.items out.new.items) }
    {
        let names = Names::new(alloc);
        let Some(config) = config_of(self.lines, words, &mut self.plain, &names, out)? else {
            self.has_faulted = true;
            return Ok(());
        };
        match Run::open(alloc, config) {
            Ok(run) => {
                self.run = Some(run);
                Ok(())
            }
            Err(Refusal::BadConfig) => {
                self.has_ended = true;
                self.has_faulted = true;
                put_bad_config(out)
            }
            Err(_) => Err(AllocError),
        }
    }

    /// Appends the row of the end, or that there was no config.
    fn put_end(&self, alloc: Global, out: &mut Vec<u8>) -> Result<(), AllocError>
        requires { self.now.lines + 1 < 2 ^ 64 }
        ensures { OnOk result (out.new.items ≡ out.old.items ++ end_of self.now.style self.now.tracing self.now.lines self.now.tracing.run) }
    {
        match &self.run {
            Some(run) => put_end(out, self.style.columns, &run.counts()),
            None if self.has_faulted => Ok(()),
            None => {
                let names = Names::new(alloc);
                put_wrong(
                    out,
                    &at_word(0, Wanted::Config),
                    self.lines + 1,
                    &[],
                    &names,
                )
            }
        }
    }
}
