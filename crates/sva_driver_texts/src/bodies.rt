//! The lines of a driver with their words, and the bodies in which they stand.

use sva_driver_words::DriverWrong;

/// A line that is read.
#[derive(Drop)]
pub struct WordedLine<'a> {
    /// Its number in the text, from 1 on.
    pub number: u64,
    /// Its words; those of a call stand where its definition has parameters.
    pub words: Vec<&'a [u8]>,
}

/// What opens a body.
#[derive(Clone, Copy, PartialEq, Eq)]
pub enum Opener {
    /// Nothing: it is the text itself.
    Text,
    /// `def`.
    Definition,
    /// `repeat`.
    Repeat,
}

/// A body that is open.
#[derive(Drop)]
pub struct Body<'a> {
    /// What opened it.
    pub opener: Opener,
    /// The number of its first line in the text; 0 of the text itself.
    pub number: u64,
    /// The name of a definition.
    pub name: &'a [u8],
    /// How often the lines of a repeat are written out.
    pub times: u64,
    /// How many `if` of its own have no `end` yet.
    pub ifs: u64,
    /// Its lines so far, written out.
    pub lines: Vec<WordedLine<'a>>,
}

/// A definition that is ended.
#[derive(Drop)]
pub struct Definition<'a> {
    /// Its name.
    pub name: &'a [u8],
    /// Its parameters.
    pub parameters: Vec<&'a [u8]>,
    /// Its lines, in which each call is written out.
    pub lines: Vec<WordedLine<'a>>,
}

/// A line that is wrong.
#[derive(Drop)]
pub struct WrongLine<'a> {
    /// Its number in the text.
    pub number: u64,
    /// Its words.
    pub words: Vec<&'a [u8]>,
    /// What is wrong with it.
    pub wrong: DriverWrong,
}
