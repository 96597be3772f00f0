//! What is kept of the lines of a driver while they are written out.

ghost use Rattle.std.specs.Prelude.{◌≡◌, ◌∷◌, [], IfOk, map, true};
ghost use Rattle.sva_driver_words.specs.declared.written.WrittenWanted.TheVariants as written;
ghost use Rattle.sva_driver_texts.specs.Bodies.{body_seen, lines_seen};
ghost use Rattle.sva_driver_texts.specs.WrittenOut as writes;
ghost use Rattle.sva_driver_texts.specs.declared.bodies.Opener.TheVariants as opener;

use crate::bodies::{Body, Definition, Opener, WordedLine, WrongLine};
use crate::given::{append, left_behind};
use std::alloc::{AllocError, Global};
use std::marker::Model;
use std::mem;
use sva_driver_words::{DriverWanted, DriverWrong, WrittenWanted, wrong_at};
use sva_script::Names;

/// The most lines that calls and repeats write out.
const MOST_LINES: u64 = 65_536;

/// The most bytes that they write out, with one behind each word.
const MOST_BYTES: u64 = 1_048_576;

/// What is kept.
#[derive(Drop)]
pub struct Writing<'a> {
    /// The innermost body that is open.
    pub body: Body<'a>,
    /// Those around it, the outermost first: the text itself.
    pub around: Vec<Body<'a>>,
    /// The parameters, within a definition.
    pub parameters: Option<Vec<&'a [u8]>>,
    /// The definitions that are ended.
    pub defined: Vec<Definition<'a>>,
    /// The names of all that were begun.
    pub known: Names,
    /// How many lines calls and repeats may still write out.
    pub left: u64,
    /// How many bytes these may have.
    pub bytes: u64,
    /// Whether one passed that.
    pub is_full: bool,
    /// The lines that are wrong.
    pub wrongs: Vec<WrongLine<'a>>,
}

impl<'a> Model for Writing<'a> {
    ghost use Rattle.std.specs.Prelude.{map, option_map};
    ghost use Rattle.sva_driver_texts.specs.Bodies.{body_seen, defined_seen, texts, wrong_seen};
    ghost use Rattle.sva_driver_texts.specs.WrittenOut as writes;

    ghost Value = { writes.Writing };

    ghost view = { λ writing. record {
      body = body_seen writing.body;
      around = map body_seen writing.around.items;
      parameters = option_map (λ own. texts own.items) writing.parameters;
      defined = map defined_seen writing.defined.items;
      known = writing.known;
      left = writing.left;
      bytes = writing.bytes;
      is_full = writing.is_full;
      wrongs = map wrong_seen writing.wrongs.items;
    } };
}

/// What is wrong at a word of a line of a definition, a call or a repeat.
pub(crate) fn written_at(at: usize, wanted: WrittenWanted) -> DriverWrong
    ensures { result ≡ writes.wrong_of at wanted }
{
    wrong_at(at, DriverWanted::Written(wanted))
}

impl<'a> Writing<'a> {
    /// Nothing is written out yet.
    pub(crate) fn nothing(alloc: Global) -> Self
        ensures { result ≡ writes.nothing_written }
    {
        Writing {
            body: Body {
                opener: Opener::Text,
                number: 0,
                name: b"",
                times: 0,
                ifs: 0,
                lines: Vec::new(alloc),
            },
            around: Vec::new(alloc),
            parameters: None,
            defined: Vec::new(alloc),
            known: Names::new(alloc),
            left: MOST_LINES,
            bytes: MOST_BYTES,
            is_full: false,
            wrongs: Vec::new(alloc),
        }
    }

    /// Notes that a line is wrong.
    pub(crate) fn tell(
        &mut self,
        alloc: Global,
        number: u64,
        words: &[&'a [u8]],
        wrong: DriverWrong,
    ) -> Result<(), AllocError>
        ensures { IfOk result (λ _. self.new
            ≡ writes.with_wrong self.old number (map (λ word. word.now) words.now) wrong) }
    {
        let words = Vec::from_slice(alloc, words)?;
        self.wrongs.push(WrongLine {
            number,
            words,
            wrong,
        })?;
        Ok(())
    }

    /// What is left behind lines that are written out, where there is room.
    fn room_behind(&self, lines: &[WordedLine<'a>]) -> Option<(u64, u64)>
        ensures { result ≡ writes.room_behind self.now (lines_seen lines.now) }
    {
        let count = lines.len() as u64;
        if count > self.left {
            return None;
        }
        match left_behind(lines, self.bytes) {
            Some(bytes) => Some((self.left - count, bytes)),
            None => None,
        }
    }

    /// Writes lines out, where there is room.
    fn put_within(
        &mut self,
        alloc: Global,
        lines: &[WordedLine<'a>],
        left: u64,
        bytes: u64,
    ) -> Result<(), AllocError>
        ensures { IfOk result (λ _. self.new ≡ record self.old {
          body = writes.with_lines self.old.body (lines_seen lines.now);
          left = left;
          bytes = bytes;
        }) }
    {
        append(alloc, &mut self.body.lines, lines)?;
        self.left = left;
        self.bytes = bytes;
        Ok(())
    }

    /// Notes that there is no room, at the call or repeat that has none.
    fn fill(&mut self, alloc: Global, number: u64, word: &'static [u8]) -> Result<(), AllocError>
        ensures { IfOk result (λ _. self.new ≡ writes.with_wrong (record self.old { is_full = true }) number
            (word.now ∷ []) (writes.wrong_of 0 written.Few)) }
    {
        self.is_full = true;
        self.tell(alloc, number, &[word], written_at(0, WrittenWanted::Few))
    }

    /// Writes lines out once.
    pub(crate) fn put_once(
        &mut self,
        alloc: Global,
        number: u64,
        word: &'static [u8],
        lines: &[WordedLine<'a>],
    ) -> Result<(), AllocError>
        ensures { IfOk result (λ _. self.new
            ≡ writes.put_once self.old number word.now (lines_seen lines.now)) }
    {
        if self.is_full {
            return Ok(());
        }
        match self.room_behind(lines) {
            Some((left, bytes)) => self.put_within(alloc, lines, left, bytes),
            None => self.fill(alloc, number, word),
        }
    }

    /// Writes lines out so often.
    fn put_times(
        &mut self,
        alloc: Global,
        times: u64,
        number: u64,
        word: &'static [u8],
        lines: &[WordedLine<'a>],
    ) -> Result<(), AllocError>
        ensures { IfOk result (λ _. self.new
            ≡ writes.put_times times self.old number word.now (lines_seen lines.now)) }
    {
        // Where nothing can come of it, it isn't tried so often.
        if self.is_full {
            return Ok(());
        }
        if lines.is_empty() {
            return Ok(());
        }
        for _time in 0..times {
            self.put_once(alloc, number, word, lines)?;
        }
        Ok(())
    }

    /// Opens a body.
    pub(crate) fn open(&mut self, body: Body<'a>) -> Result<(), AllocError>
        ensures { IfOk result (λ _. self.new ≡ writes.opened self.old (body_seen body.entry)) }
    {
        let outer = mem::replace(&mut self.body, body);
        self.around.push(outer)?;
        Ok(())
    }

    /// Keeps a definition that is ended.
    fn define(&mut self, alloc: Global, body: Body<'a>) -> Result<(), AllocError>
        ensures { IfOk result (λ _. self.new
            ≡ writes.ended_by self.old (body_seen body.entry) opener.Definition) }
    {
        let Body {
            opener: _,
            number: _,
            name,
            times: _,
            ifs: _,
            lines,
        } = body;
        let parameters = match mem::replace(&mut self.parameters, None) {
            Some(parameters) => parameters,
            None => Vec::new(alloc),
        };
        self.defined.push(Definition {
            name,
            parameters,
            lines,
        })?;
        Ok(())
    }

    /// Ends a body, where the one around it is the innermost again.
    fn end_by(&mut self, alloc: Global, body: Body<'a>) -> Result<(), AllocError>
        ensures { IfOk result (λ _. self.new ≡ writes.ended_by self.old (body_seen body.entry) body.entry.opener) }
    {
        match body.opener {
            Opener::Text => Ok(()),
            Opener::Definition => self.define(alloc, body),
            Opener::Repeat => self.put_times(
                alloc,
                body.times,
                body.number,
                b"repeat",
                body.lines.as_slice(),
            ),
        }
    }

    /// Ends the innermost body.
    pub(crate) fn end_body(&mut self, alloc: Global) -> Result<(), AllocError>
        ensures { IfOk result (λ _. self.new ≡ writes.body_ended self.old) }
    {
        match self.around.pop() {
            Some(outer) => {
                let body = mem::replace(&mut self.body, outer);
                self.end_by(alloc, body)
            }
            None => Ok(()),
        }
    }

    /// Keeps a line as it is, with so many open `if` behind it.
    pub(crate) fn keep(
        &mut self,
        alloc: Global,
        number: u64,
        words: &[&'a [u8]],
        ifs: u64,
    ) -> Result<(), AllocError>
        ensures { IfOk result (λ _. self.new ≡ record self.old {
          body = record (writes.with_lines self.old.body ((number, map (λ word. word.now) words.now) ∷ [])) { ifs = ifs };
        }) }
    {
        let words = Vec::from_slice(alloc, words)?;
        self.body.lines.push(WordedLine { number, words })?;
        self.body.ifs = ifs;
        Ok(())
    }
}
