//! The flags that lines name, and the blocks in which they stand.

ghost use Rattle.std.specs.Prelude.{◌≡◌, ◌++◌, ◌∷◌, [], IfOk, map};
ghost use Rattle.std.specs.List.{list_any};
ghost use Rattle.std.specs.Str.{bytes_eq};
ghost use Rattle.sva_script.specs.Lines.{parts_of};
ghost use Rattle.sva_driver_texts.specs.Blocks as blocks;
ghost use Rattle.sva_driver_texts.specs.Readings as readings;
ghost use Rattle.sva_driver_texts.specs.Readings.{Takes};

use crate::blocks::{Block, branch, put_open, under_of};
use crate::readings::{Reading, is_among};
use std::alloc::{AllocError, Global};
use sva_driver_words::{DriverStop, Under, flag_place, names_flag, says};
use sva_race_texts::word_at;
use sva_script::{Names, parts_of};

impl Reading {
    /// The blocks in which a line of a thread stands that comes next, the outermost first.
    pub(crate) fn under_of(&self, alloc: Global, thread: &[u8]) -> Result<Vec<Under>, AllocError>
        ensures { IfOk result (λ under. under.items ≡ blocks.under_of thread.now self.now.blocks) }
    {
        under_of(alloc, thread, self.blocks.as_slice())
    }

    /// Whether a line above names a flag.
    fn has_flag(&self, name: &[u8]) -> bool
        ensures { result ≡ list_any (λ own. bytes_eq own name.now) self.now.flags }
    {
        is_among(self.flags.as_slice(), name)
    }

    /// Adds a flag.
    fn push_flag(&mut self, alloc: Global, name: &[u8]) -> Result<(), AllocError>
        ensures { IfOk result (λ _. self.new ≡ record self.old { flags = self.old.flags ++ name.now ∷ [] }) }
    {
        let own = Vec::from_slice(alloc, name)?;
        self.flags.push(own)?;
        Ok(())
    }

    /// Notes the flag that a line names.
    pub(crate) fn note_flag(&mut self, alloc: Global, words: &[&[u8]]) -> Result<(), AllocError>
        ensures { IfOk result (λ _. self.new ≡ readings.with_flag_of self.old (map (λ word. word.now) words.now)) }
    {
        if names_flag(words) && !self.has_flag(word_at(words, flag_place(words))) {
            return self.push_flag(alloc, word_at(words, flag_place(words)));
        }
        Ok(())
    }

    /// Adds a block, which the line at a place opens.
    fn push_block(
        &mut self,
        alloc: Global,
        thread: &[u8],
        number: u64,
        place: usize,
    ) -> Result<(), AllocError>
        ensures { IfOk result (λ _. self.new ≡ record self.old {
          blocks = self.old.blocks ++ blocks.opened_by thread.now number place ∷ [];
        }) }
    {
        let own = Vec::from_slice(alloc, thread)?;
        self.blocks.push(Block {
            thread: own,
            number,
            under: Under {
                line: place,
                so: true,
            },
            is_right: true,
        })?;
        Ok(())
    }

    /// Adds the block of a wrong `if`.
    fn push_wrong_block(&mut self, thread: Vec<u8>, number: u64) -> Result<(), AllocError>
        ensures { IfOk result (λ _. self.new ≡ record self.old {
          blocks = self.old.blocks ++ blocks.opened_wrong thread.items number ∷ [];
        }) }
    {
        self.blocks.push(Block {
            thread,
            number,
            under: Under { line: 0, so: true },
            is_right: false,
        })?;
        Ok(())
    }

    /// Notes the block that a wrong line opens.
    pub(crate) fn note_wrong_block(
        &mut self,
        alloc: Global,
        number: u64,
        words: &[&[u8]],
    ) -> Result<(), AllocError>
        ensures { IfOk result (λ _. self.new ≡ readings.with_wrong_block self.old number
            (parts_of (map (λ word. word.now) words.now))) }
    {
        let parts = parts_of(words);
        if says(parts.step, 0, b"if") {
            let thread = self.thread_of(alloc, parts.step)?;
            return self.push_wrong_block(thread, number);
        }
        Ok(())
    }

    /// Notes the block that the next line opens.
    pub(crate) fn note_block(
        &mut self,
        alloc: Global,
        thread: &[u8],
        number: u64,
        words: &[&[u8]],
    ) -> Result<(), AllocError>
        ensures { IfOk result (λ _. self.new
            ≡ readings.with_block_of self.old thread.now number (map (λ word. word.now) words.now)) }
    {
        if says(words, 0, b"if") {
            let place = self.count();
            return self.push_block(alloc, thread, number, place);
        }
        Ok(())
    }

    /// Takes `else` or `end`, of a thread.
    pub(crate) fn branch(&mut self, thread: &[u8], word: &[u8]) -> Result<(), DriverStop>
        ensures { Takes (readings.with_branch self.old thread.now word.now) self.old self.new result }
    {
        match branch(&mut self.blocks, thread, word) {
            Ok(()) => Ok(()),
            Err(wrong) => Err(DriverStop::Wrong(wrong)),
        }
    }

    /// Tells of each block that is open.
    pub(crate) fn tell_open(&mut self, names: &Names) -> Result<(), AllocError>
        ensures { IfOk result (λ _. self.new ≡ readings.with_open names.now self.old) }
    {
        put_open(self.blocks.as_slice(), names, &mut self.said)
    }
}
