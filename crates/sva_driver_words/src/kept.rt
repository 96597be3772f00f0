//! What is kept of lines that were read.

use sva_open::Saying;

/// A block in which a line stands.
#[derive(Clone, Copy, PartialEq, Eq)]
pub struct Under {
    /// The place of the line that looks.
    pub line: usize,
    /// Whether the first branch is meant; else the one behind `else`.
    pub so: bool,
}

/// A line of an act.
#[derive(Drop)]
pub struct LineRead {
    /// Its number in the text, from 1 on.
    pub number: u64,
    /// The blocks in which it stands, the outermost first.
    pub under: Vec<Under>,
    /// Its name; empty where it has none.
    pub name: Vec<u8>,
    /// Its thread; empty before `race`.
    pub thread: Vec<u8>,
    /// Its words behind its name, a space between two.
    pub text: Vec<u8>,
    /// What it says.
    pub saying: Saying,
}
