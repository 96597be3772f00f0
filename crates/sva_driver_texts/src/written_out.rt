//! The lines of a driver that are read: each definition, call and repeat written out.

ghost use Rattle.std.specs.Prelude.{◌≡◌, ◌+◌, ◌++◌, [], IfOk, OnOk, Some, flat_map, map, option_map, take};
ghost use Rattle.sva_driver_words.specs.Fields.{times_at};
ghost use Rattle.sva_driver_texts.specs.Bodies.{WritesOut, body_seen, lines_seen, wrong_seen};
ghost use Rattle.sva_driver_texts.specs.WrittenOut as writes;
ghost use Rattle.sva_script_reading.specs.Begins.{lines_from};

use crate::bodies::{Body, Opener, WordedLine, WrongLine};
use crate::given::put_lines;
use crate::titles::is_title;
use crate::writing::{Writing, written_at};
use crate::wrong_bodies::{begins_own, behind_name, definition_of, is_bare_end};
use std::alloc::{AllocError, Global};
use sva_driver_words::{DriverWrong, WrittenWanted, put_fault, says, times_at};
use sva_race_texts::{count_of, word_at, words_from};
use sva_script::{Given, Names, split};
use sva_script_reading::Lines;

/// How often the lines of a repeat are written out; once where that is wrong.
fn times_or_one(words: &[&[u8]]) -> u64
    ensures { result ≡ writes.times_or_one (times_at 1 (map (λ word. word.now) words.now)) }
{
    match times_at(words, 1) {
        Ok(times) => times,
        Err(_) => 1,
    }
}

/// How many `if` are open behind a line.
fn ifs_behind(ifs: u64, words: &[&[u8]]) -> Result<u64, AllocError>
    ensures { IfOk result (λ behind. behind ≡ writes.ifs_behind ifs (map (λ word. word.now) words.now)) }
{
    if says(behind_name(words), 0, b"if") {
        return match ifs.checked_add(1) {
            Some(more) => Ok(more),
            None => Err(AllocError),
        };
    }
    if is_bare_end(words) {
        return Ok(ifs.saturating_sub(1));
    }
    Ok(ifs)
}

/// The parameters of a definition, of which no more than 16 count.
fn parameters_of<'a>(alloc: Global, words: &[&'a [u8]]) -> Result<Vec<&'a [u8]>, AllocError>
    ensures { IfOk result (λ own. map (λ word. word.now) own.items
        ≡ take 16 (map (λ word. word.now) words.now)) }
{
    let count = words.len().min(16);
    Vec::from_slice(alloc, &words[..count])
}

impl<'a> Writing<'a> {
    /// Notes the name of a definition, if it is one and no definition above has it.
    fn note_definition(&mut self, alloc: Global, number: u64, name: &[u8]) -> Result<(), AllocError>
        ensures { IfOk result (λ _. self.new ≡ record self.old {
          known = writes.noted_definition self.old.known number name.now;
        }) }
    {
        if is_title(name) && self.known.get(name).is_none() {
            let given = Given {
                line: number,
                told: None,
            };
            return self.known.put(alloc, name, given);
        }
        Ok(())
    }

    /// Opens a definition.
    fn open_definition(
        &mut self,
        alloc: Global,
        number: u64,
        words: &[&'a [u8]],
    ) -> Result<(), AllocError>
        ensures { IfOk result (λ _. self.new
            ≡ writes.def_opened self.old number (map (λ word. word.now) words.now)) }
    {
        let parameters = parameters_of(alloc, words_from(words, 2))?;
        self.note_definition(alloc, number, word_at(words, 1))?;
        self.parameters = Some(parameters);
        self.open(Body {
            opener: Opener::Definition,
            number,
            name: word_at(words, 1),
            times: 0,
            ifs: 0,
            lines: Vec::new(alloc),
        })
    }

    /// Opens a repeat.
    fn open_repeat(
        &mut self,
        alloc: Global,
        number: u64,
        words: &[&'a [u8]],
    ) -> Result<(), AllocError>
        ensures { IfOk result (λ _. self.new
            ≡ writes.repeat_opened self.old number (map (λ word. word.now) words.now)) }
    {
        self.open(Body {
            opener: Opener::Repeat,
            number,
            name: b"",
            times: times_or_one(words),
            ifs: 0,
            lines: Vec::new(alloc),
        })
    }

    /// The lines of the definition that is called, with the words of the call; `None` where there is no such definition, or
    /// it has more parameters or fewer.
    fn lines_called(
        &self,
        alloc: Global,
        words: &[&'a [u8]],
    ) -> Result<Option<Vec<WordedLine<'a>>>, AllocError>
        ensures { IfOk result (λ lines. option_map (λ own. lines_seen own.items) lines
            ≡ writes.lines_called self.now (map (λ word. word.now) words.now)) }
    {
        let Some(defined) = definition_of(self.defined.as_slice(), word_at(words, 1)) else {
            return Ok(None);
        };
        if count_of(words) < 2 || count_of(words) - 2 != defined.parameters.len() {
            return Ok(None);
        }
        let lines = put_lines(alloc, defined, words_from(words, 2))?;
        Ok(Some(lines))
    }

    /// Writes out the definition that is called.
    fn call(&mut self, alloc: Global, number: u64, words: &[&'a [u8]]) -> Result<(), AllocError>
        ensures { IfOk result (λ _. self.new
            ≡ writes.called self.old number (map (λ word. word.now) words.now)) }
    {
        if self.is_full {
            return Ok(());
        }
        match self.lines_called(alloc, words)? {
            Some(lines) => self.put_once(alloc, number, b"call", lines.as_slice()),
            None => Ok(()),
        }
    }

    /// Takes a definition, a call or a repeat, by its words behind a name.
    fn take_own(&mut self, alloc: Global, number: u64, words: &[&'a [u8]]) -> Result<(), AllocError>
        ensures { IfOk result (λ _. self.new
            ≡ writes.own_taken self.old number (map (λ word. word.now) words.now)) }
    {
        if says(words, 0, b"def") {
            return self.open_definition(alloc, number, words);
        }
        if says(words, 0, b"call") {
            return self.call(alloc, number, words);
        }
        self.open_repeat(alloc, number, words)
    }

    /// Whether a line ends the innermost body.
    fn ends_body(&self, words: &[&[u8]]) -> bool
        ensures { result ≡ writes.ends_body self.now (map (λ word. word.now) words.now) }
    {
        is_bare_end(words) && self.body.ifs == 0 && self.around.len() > 0
    }

    /// Takes a line.
    fn take(&mut self, alloc: Global, number: u64, words: &[&'a [u8]]) -> Result<(), AllocError>
        ensures { IfOk result (λ _. self.new
            ≡ writes.taken self.old number (map (λ word. word.now) words.now)) }
    {
        if begins_own(word_at(behind_name(words), 0)) {
            return self.take_own(alloc, number, behind_name(words));
        }
        if self.ends_body(words) {
            return self.end_body(alloc);
        }
        let ifs = ifs_behind(self.body.ifs, words)?;
        self.keep(alloc, number, words, ifs)
    }

    /// Tells what is wrong with a line, if something is.
    fn tell_if(
        &mut self,
        alloc: Global,
        number: u64,
        words: &[&'a [u8]],
        wrong: Option<DriverWrong>,
    ) -> Result<(), AllocError>
        ensures { IfOk result (λ _. self.new
            ≡ writes.told_if self.old number (map (λ word. word.now) words.now) wrong) }
    {
        match wrong {
            Some(wrong) => self.tell(alloc, number, words, wrong),
            None => Ok(()),
        }
    }

    /// Takes a line, and tells what is wrong with it.
    fn take_line(
        &mut self,
        alloc: Global,
        number: u64,
        words: &[&'a [u8]],
    ) -> Result<(), AllocError>
        ensures { IfOk result (λ _. self.new
            ≡ writes.behind_line self.old number (map (λ word. word.now) words.now)) }
    {
        let wrong = self.line_wrong(words);
        self.tell_if(alloc, number, words, wrong)?;
        self.take(alloc, number, words)
    }
}

/// Takes lines, one after another.
fn take_lines<'a>(
    alloc: Global,
    from: Lines<'a>,
    writing: &mut Writing<'a>,
) -> Result<(), AllocError>
    ensures { IfOk result (λ _. writing.new
        ≡ writes.written_from writing.old (lines_from (from.entry.number + 1) from.entry.rest.now)) }
{
    let mut lines = from;
    let mut words = Vec::new(alloc);
    while let Some((number, line)) = lines.next() {
        split(line, &mut words)?;
        writing.take_line(alloc, number, words.as_slice())?;
    }
    Ok(())
}

/// Tells what is wrong with a line.
fn put_wrong(line: &WrongLine<'_>, known: &Names, out: &mut Vec<u8>) -> Result<(), AllocError>
    ensures { OnOk result (out.new.items ≡ out.old.items ++ writes.wrong_text known.now (wrong_seen line.now)) }
{
    put_fault(out, &line.wrong, line.number, line.words.as_slice(), known)
}

/// Tells what is wrong with each line.
fn put_wrongs(lines: &[WrongLine<'_>], known: &Names, out: &mut Vec<u8>) -> Result<(), AllocError>
    ensures { OnOk result (out.new.items
        ≡ out.old.items ++ flat_map (writes.wrong_text known.now) (map wrong_seen lines.now)) }
{
    for line in lines {
        put_wrong(line, known, out)?;
    }
    Ok(())
}

/// Tells of a body that it isn't ended, at its first line.
fn put_unended(body: &Body<'_>, known: &Names, out: &mut Vec<u8>) -> Result<(), AllocError>
    ensures { OnOk result (out.new.items
        ≡ out.old.items ++ writes.unended_text known.now (body_seen body.now)) }
{
    let wrong = written_at(0, WrittenWanted::End);
    match body.opener {
        Opener::Text => Ok(()),
        Opener::Definition => put_fault(out, &wrong, body.number, &[b"def"], known),
        Opener::Repeat => put_fault(out, &wrong, body.number, &[b"repeat"], known),
    }
}

/// Tells it of each of these.
fn put_each_unended(bodies: &[Body<'_>], known: &Names, out: &mut Vec<u8>) -> Result<(), AllocError>
    ensures { OnOk result (out.new.items
        ≡ out.old.items ++ flat_map (writes.unended_text known.now) (map body_seen bodies.now)) }
{
    for body in bodies {
        put_unended(body, known, out)?;
    }
    Ok(())
}

/// Tells all that is wrong.
fn put_said(writing: &Writing<'_>, out: &mut Vec<u8>) -> Result<(), AllocError>
    ensures { OnOk result (out.new.items ≡ out.old.items ++ writes.said_of writing.now) }
{
    put_wrongs(writing.wrongs.as_slice(), &writing.known, out)?;
    put_each_unended(writing.around.as_slice(), &writing.known, out)?;
    put_unended(&writing.body, &writing.known, out)
}

/// The lines that were written out.
fn lines_of<'a>(writing: Writing<'a>) -> Vec<WordedLine<'a>>
    ensures { lines_seen result.items ≡ writing.entry.body.lines }
{
    let Writing {
        body,
        around: _,
        parameters: _,
        defined: _,
        known: _,
        left: _,
        bytes: _,
        is_full: _,
        wrongs: _,
    } = writing;
    let Body {
        opener: _,
        number: _,
        name: _,
        times: _,
        ifs: _,
        lines,
    } = body;
    lines
}

/// The lines that are read of these; or `None`, with all that is wrong with definitions, calls and repeats in `out`.
pub(crate) fn write_out<'a>(
    alloc: Global,
    from: Lines<'a>,
    out: &mut Vec<u8>,
) -> Result<Option<Vec<WordedLine<'a>>>, AllocError>
    requires { out.old.items ≡ [] }
    ensures { IfOk result (λ found. WritesOut (writes.written_out
        (lines_from (from.entry.number + 1) from.entry.rest.now)) (option_map (λ own. own.items) found)
        out.new.items) }
{
    let mut writing = Writing::nothing(alloc);
    take_lines(alloc, from, &mut writing)?;
    put_said(&writing, out)?;
    if out.is_empty() {
        return Ok(Some(lines_of(writing)));
    }
    Ok(None)
}

/// A text without definitions, calls and repeats is read as it stands.
pub fn plain_lines_stay()
    ensures { writes.PlainStay }
{}
